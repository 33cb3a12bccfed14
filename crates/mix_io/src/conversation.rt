// What a device in memory was asked and answered.
ghost use Rattle.std.specs.Prelude.{◌≡◌, ◌≤◌, ℕ, List, [], Option, None, Some, IfOk, MatchOption, vec_capacity, if◌then◌else◌};
ghost use Rattle.mix_io.specs.Devices.{noted};

use mix_bits::NoMemory;
use std::alloc::Global;
use std::marker::Model;

/// How many asks are told.
const TOLD: usize = 4096;

/// The asks so far with their answers, which a device of one's own may keep and tell. It is told while there is room for it,
/// which is for 4096 asks, and never after that.
#[derive(Drop)]
pub struct Conversation {
    asks: Vec<(u32, Option<u32>)>,
    telling: bool,
}

impl Model for Conversation {
    ghost Value = { Option (List (ℕ × Option ℕ)) };

    ghost view = { λ c. if c.telling then Some c.asks.items else None };

    ghost invariant = { λ c. 4096 ≤ vec_capacity c.asks };
}

impl Conversation {
    /// A conversation without an ask. It takes the memory for all that it may tell here.
    pub fn new(alloc: Global) -> Result<Conversation, NoMemory>
        ensures { IfOk result (λ c. c ≡ Some []) }
    {
        Ok(Conversation {
            asks: Vec::with_capacity(alloc, TOLD)?,
            telling: true,
        })
    }

    /// Notes an ask with its answer, or with none where the device failed.
    pub fn note(&mut self, word: u32, answer: Option<u32>)
        ensures { self.new ≡ noted self.old word answer }
    {
        if self.asks.len() < TOLD {
            self.asks.push_reserved((word, answer));
        } else {
            self.telling = false;
        }
    }

    /// The asks so far, each with its answer, or none where there were too many.
    pub fn told(&self) -> Option<&[(u32, Option<u32>)]>
        ensures { MatchOption result (self.now ≡ None) (λ asks. self.now ≡ Some asks.now) }
    {
        if self.telling { Some(&self.asks) } else { None }
    }
}
