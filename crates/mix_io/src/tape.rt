// A device that keeps its words.
ghost use Rattle.std.specs.Prelude.{◌≡◌, ◌≤◌, [], Some, IfOk, ok_or, length, vec_capacity};
ghost use Rattle.mix_io.specs.CountsClauses.{HasCause};
ghost use Rattle.mix_io.specs.Told.{Hears};
ghost use Rattle.mix_io.specs.Devices.{Words, tape_answer, after_tape};

use super::conversation::Conversation;
use super::counts::count_fault;
use super::errors::Failed;
use super::traits::Device;
use mix_bits::NoMemory;
use std::alloc::Global;
use std::marker::Model;

/// How many words a tape holds.
const LENGTH: u32 = 1024;

/// Keeps each word, and answers how many it held before. A full tape fails.
#[derive(Drop)]
pub struct Tape {
    words: Vec<u32>,
    conversation: Conversation,
    faults: u64,
}

impl Model for Tape {
    ghost Value = { Words };

    ghost view = { λ s. record { words = s.words.items; told = s.conversation; faults = s.faults } };

    ghost invariant = { λ s. (length s.words.items ≤ 1024) × (1024 ≤ vec_capacity s.words) };
}

impl Tape {
    /// An empty tape. It takes memory for its words, and for the conversation that it tells.
    pub fn new(alloc: Global) -> Result<Tape, NoMemory>
        ensures made { IfOk result (λ s. s ≡ record { words = []; told = Some []; faults = 0 }) }
        ensures told { IfOk result (λ s. ⟦<Tape as Device>⟧.told s ≡ Some []) }
        ensures faults { IfOk result (λ s. ⟦<Tape as Device>⟧.faults s ≡ 0) }
    {
        Ok(Tape {
            words: Vec::with_capacity(alloc, LENGTH as usize)?,
            conversation: Conversation::new(alloc)?,
            faults: 0,
        })
    }
}

impl Device for Tape {
    ghost told = { λ s. s.told };

    ghost faults = { λ s. s.faults };

    fn ask(&mut self, word: u32) -> Result<u32, Failed>
        ensures heard { Hears self.old.told self.new.told word result }
        ensures cause { HasCause self.old.faults self.new.faults result }
        ensures exact { result ≡ ok_or (tape_answer self.old) (record {}) }
        ensures after { self.new ≡ after_tape self.old word }
    {
        let held = self.words.len() as u32;
        if held == LENGTH {
            self.faults = count_fault(self.faults);
            self.conversation.note(word, None);
            return Err(Failed);
        }
        self.words.push_reserved(word);
        self.conversation.note(word, Some(held));
        Ok(held)
    }
}
