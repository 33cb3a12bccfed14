// A device that adds up its words.
ghost use Rattle.std.specs.Prelude.{◌≡◌, [], Some, Ok, IfOk};
ghost use Rattle.mix_io.specs.CountsClauses.{HasCause};
ghost use Rattle.mix_io.specs.Told.{Hears};
ghost use Rattle.mix_io.specs.Devices.{Count, total_with, after_count};

use super::conversation::Conversation;
use super::errors::Failed;
use super::traits::Device;
use mix_bits::NoMemory;
use std::alloc::Global;
use std::marker::Model;

/// Adds each word to a total of 32 bits, which wraps, and answers the total.
#[derive(Drop)]
pub struct Counter {
    total: u32,
    conversation: Conversation,
    faults: u64,
}

impl Model for Counter {
    ghost Value = { Count };

    ghost view = { λ s. record { total = s.total; told = s.conversation; faults = s.faults } };
}

impl Counter {
    /// A counter at 0. It takes memory for the conversation that it tells.
    pub fn new(alloc: Global) -> Result<Counter, NoMemory>
        ensures made { IfOk result (λ s. s ≡ record { total = 0; told = Some []; faults = 0 }) }
        ensures told { IfOk result (λ s. ⟦<Counter as Device>⟧.told s ≡ Some []) }
        ensures faults { IfOk result (λ s. ⟦<Counter as Device>⟧.faults s ≡ 0) }
    {
        Ok(Counter {
            total: 0,
            conversation: Conversation::new(alloc)?,
            faults: 0,
        })
    }
}

impl Device for Counter {
    ghost told = { λ s. s.told };

    ghost faults = { λ s. s.faults };

    fn ask(&mut self, word: u32) -> Result<u32, Failed>
        ensures heard { Hears self.old.told self.new.told word result }
        ensures cause { HasCause self.old.faults self.new.faults result }
        ensures exact { result ≡ Ok (total_with self.old word) }
        ensures after { self.new ≡ after_count self.old word }
    {
        self.total = self.total.wrapping_add(word);
        self.conversation.note(word, Some(self.total));
        Ok(self.total)
    }
}
