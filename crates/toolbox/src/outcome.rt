use crate::values::Results;
use big_memory::Access;
use dev_rack::Answer;

/// What a function did, beside the registers.
#[derive(Clone, Copy)]
pub enum Outcome {
    Given(Results),
    Asked {
        slot: u32,
        word: u32,
        answer: Answer,
    },
    Crossed {
        pointer: u32,
        info: u32,
    },
    Left(u32),
    Refused(Access),
    ReadFault,
    OutFault,
}
