// A device of one's own.
ghost use Rattle.std.specs.Prelude.{◌≡◌, ◌*◌, ◌%◌, ◌^◌, [], Ok, Some, IfOk};
ghost use Rattle.mix_io.specs.CountsClauses.{HasCause};
ghost use Rattle.mix_io.specs.Told.{Hears};

use mix_io::{Conversation, Device, Failed, NoMemory};
use std::alloc::Global;

/// A device that answers the square of a word, in 32 bits.
#[derive(Drop)]
pub struct Squares {
    conversation: Conversation,
}

impl Squares {
    /// A device that was not asked yet.
    pub fn new(alloc: Global) -> Result<Squares, NoMemory>
        ensures { IfOk result (λ s. ⟦<Squares as Device>⟧.told s ≡ Some []) }
    {
        let conversation = Conversation::new(alloc)?;
        Ok(Squares { conversation })
    }
}

impl Device for Squares {
    ghost told = { λ s. s.conversation };

    ghost faults = { λ _. 0 };

    fn ask(&mut self, word: u32) -> Result<u32, Failed>
        ensures heard { Hears self.old.conversation self.new.conversation word result }
        ensures cause { HasCause 0 0 result }
        ensures exact { result ≡ Ok ((word * word) % 2 ^ 32) }
    {
        let square = word.wrapping_mul(word);
        self.conversation.note(word, Some(square));
        Ok(square)
    }
}
