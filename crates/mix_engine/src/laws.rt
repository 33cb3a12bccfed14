// The laws of the crates below that the steps stand on.
ghost use Rattle.mix_engine.specs.laws.Laws.{AreLaws};

use big_memory::memory_laws;
use dev_rack::journal_laws;
use switch_frame::{chain_laws, frame_laws};

/// The laws of memory, frames and devices. It does nothing.
#[inline(always)]
pub fn body_laws()
    ensures { AreLaws }
{
    memory_laws();
    chain_laws();
    frame_laws();
    journal_laws();
}
