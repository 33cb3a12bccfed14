// The results that functions give, with the error numbers of the toolbox as 32 bits.
ghost use Rattle.std.specs.Prelude.{◌≡◌, if◌then◌else◌};
ghost use Rattle.toolbox.specs.Effects.{error, no_room, no_slot, results, results_of};

use crate::values::Results;
use dev_rack::Answer;

/// -21: the slot holds no device.
const NO_SLOT: u32 = 0xFFFF_FFEB;

/// -36: the device failed.
const DEVICE_FAILED: u32 = 0xFFFF_FFDC;

/// -108: the heap or the journal has no room.
const NO_ROOM: u32 = 0xFFFF_FF94;

/// -111: no block begins at the address.
const NO_BLOCK: u32 = 0xFFFF_FF91;

/// -1: the input is at its end.
const AT_END: u32 = 0xFFFF_FFFF;

/// One number.
pub fn one(first: u32) -> Results
    ensures { result ≡ results first 0 }
{
    Results { first, second: 0 }
}

/// The heap has no room: no address, and an error.
pub fn no_address() -> Results
    ensures { result ≡ results 0 no_room }
{
    Results {
        first: 0,
        second: NO_ROOM,
    }
}

/// Whether there was a block to give up.
pub fn of_dispose(found: bool) -> Results
    ensures { result ≡ results (if found then 0 else error 111) 0 }
{
    one(if found { 0 } else { NO_BLOCK })
}

/// Whether there was a device to give up.
pub fn of_eject(found: bool) -> Results
    ensures { result ≡ results (if found then 0 else no_slot) 0 }
{
    one(if found { 0 } else { NO_SLOT })
}

/// The end of the input.
pub fn at_end() -> Results
    ensures { result ≡ results (error 1) 0 }
{
    one(AT_END)
}

/// What came of an ask: the error, and the device's answer.
pub fn of_ask(answer: Answer) -> Results
    ensures { result ≡ results_of answer }
{
    match answer {
        Answer::Word(word) => Results {
            first: 0,
            second: word,
        },
        Answer::Failed => one(DEVICE_FAILED),
        Answer::Empty => one(NO_SLOT),
        Answer::Full => one(NO_ROOM),
    }
}
