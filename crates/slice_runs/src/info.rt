// A procInfo word in words.
ghost use Rattle.std.specs.Prelude.{◌≡◌};
ghost use Rattle.look_text.specs.Info.{info_of};
ghost use Rattle.slice_parts.specs.Buffers.{IsWithin, buffer};
ghost use Rattle.slice_runs.specs.Told.{Tells};

use super::told::Told;
use look_text::info_text;
use mix_io::NoMemory;
use mix_top::status::{NO_MEMORY, SUCCESS};
use slice_parts::copy;
use std::alloc::Global;

/// Tells what a procInfo word says, as `mixedlook info` does: its convention and the places of its values, or which rule it
/// breaks. The answer is 0, or 9 for want of memory.
pub fn explain(alloc: Global, word: u32, out: &mut [u8], told: &mut Told) -> u8
    ensures tells { Tells (info_of word) (buffer out.old out.new told.new.out) result }
    ensures within { IsWithin (buffer out.old out.new told.new.out) }
    ensures trace { told.new.trace ≡ 0 }
    ensures kept { told.new.kept ≡ 0 }
    ensures steps { told.new.steps ≡ 0 }
{
    *told = Told::default();
    match info_text(alloc, word) {
        Ok(text) => {
            told.out = copy(&text, out);
            SUCCESS
        }
        Err(NoMemory) => NO_MEMORY,
    }
}
