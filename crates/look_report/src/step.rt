// The instruction that a machine is about to do.
use arrayvec::ArrayVec;
use big_memory::Ram;
use m68_ea::read_words;
use mix_bits::Isa;
use mix_engine::Machine;

/// How many words an instruction has at most.
pub const MOST_WORDS: usize = 5;

/// A step: the set and the address of its code, and the words that stood there, up to the first one outside RAM.
#[derive(Drop)]
pub struct Step {
    pub set: Isa,
    pub at: u32,
    pub words: ArrayVec<u16, MOST_WORDS>,
}

impl Step {
    /// The same step once more.
    pub fn copy(&self) -> Step {
        let mut words = ArrayVec::new();
        let _fits = words.try_extend_from_slice(self.words.as_slice());
        Step {
            set: self.set,
            at: self.at,
            words,
        }
    }

    /// Whether another step is in the same set and has the same words, wherever it stands.
    pub fn is_like(&self, other: &Step) -> bool {
        self.set == other.set && self.words.as_slice() == other.words.as_slice()
    }
}

/// The step that a machine is about to do.
pub fn step_at(machine: &Machine) -> Step {
    let at = machine.active.pc();
    Step {
        set: machine.active.isa(),
        at,
        words: words_at(&machine.body.ram, at),
    }
}

/// The words from `at` on, up to the first one outside RAM.
fn words_at(ram: &Ram, at: u32) -> ArrayVec<u16, MOST_WORDS> {
    let mut read = [0; MOST_WORDS];
    let count = read_words(ram, at, &mut read);
    let mut words = ArrayVec::new();
    let _fits = words.try_extend_from_slice(&read[..count]);
    words
}
