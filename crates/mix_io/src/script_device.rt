// A device that answers from a script.
ghost use Rattle.std.specs.Prelude.{◌≡◌, [], Option, Some, IfOk, ok_or};
ghost use Rattle.std.specs.Vec.Iter.{into_iter_items};
ghost use Rattle.mix_io.specs.CountsClauses.{HasCause};
ghost use Rattle.mix_io.specs.Told.{Hears};
ghost use Rattle.mix_io.specs.Devices.{Script, script_answer, after_script};

use super::conversation::Conversation;
use super::counts::count_fault;
use super::errors::Failed;
use super::traits::Device;
use mix_bits::NoMemory;
use std::alloc::Global;
use std::marker::Model;
use std::vec::IntoIter;

/// Gives each of its answers once, in order, whatever the word. A `None` is a failure, and after the
/// last answer every ask fails.
#[derive(Drop)]
pub struct ScriptDevice {
    answers: IntoIter<Option<u32>>,
    conversation: Conversation,
    faults: u64,
}

impl Model for ScriptDevice {
    ghost Value = { Script };

    ghost view = { λ s. record {
      answers = into_iter_items s.answers;
      told = s.conversation;
      faults = s.faults;
    } };
}

impl ScriptDevice {
    /// A device with these answers. It takes memory for the conversation that it tells.
    pub fn new(alloc: Global, answers: Vec<Option<u32>>) -> Result<ScriptDevice, NoMemory>
        ensures made { IfOk result (λ s. s ≡ record { answers = answers.items; told = Some []; faults = 0 }) }
        ensures told { IfOk result (λ s. ⟦<ScriptDevice as Device>⟧.told s ≡ Some []) }
        ensures faults { IfOk result (λ s. ⟦<ScriptDevice as Device>⟧.faults s ≡ 0) }
    {
        Ok(ScriptDevice {
            conversation: Conversation::new(alloc)?,
            answers: answers.into_iter(),
            faults: 0,
        })
    }
}

impl Device for ScriptDevice {
    ghost told = { λ s. s.told };

    ghost faults = { λ s. s.faults };

    fn ask(&mut self, word: u32) -> Result<u32, Failed>
        ensures heard { Hears self.old.told self.new.told word result }
        ensures cause { HasCause self.old.faults self.new.faults result }
        ensures exact { result ≡ ok_or (script_answer self.old) (record {}) }
        ensures after { self.new ≡ after_script self.old word }
    {
        let answer = self.answers.next().flatten();
        self.conversation.note(word, answer);
        if answer.is_none() {
            self.faults = count_fault(self.faults);
        }
        answer.ok_or(Failed)
    }
}
