use crate::status::NO_MEMORY;
use mix_bits::NoMemory;

/// Why a command is not done: its status, and the sentence that goes with it, if there was memory for one.
#[derive(Drop)]
pub struct Failure {
    pub status: u8,
    pub sentence: Option<Vec<u8>>,
}

impl Failure {
    ghost use Rattle.std.specs.Prelude.{◌≡◌, ◌⊎◌};

    /// That there was no memory.
    pub fn no_memory() -> Failure
        ensures { result.status ≡ 9 }
    {
        Failure {
            status: NO_MEMORY,
            sentence: None,
        }
    }

    /// A status with its sentence, or that there was no memory for the sentence.
    pub fn told(sentence: Result<Vec<u8>, NoMemory>, status: u8) -> Failure
        ensures { (result.status ≡ status) ⊎ (result.status ≡ 9) }
    {
        match sentence {
            Ok(text) => Failure {
                status,
                sentence: Some(text),
            },
            Err(NoMemory) => Failure::no_memory(),
        }
    }
}
