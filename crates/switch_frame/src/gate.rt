// The gate page of memory that came from outside.
ghost use Rattle.std.specs.Prelude.{◌≡◌, ◌<◌, ◌^◌, OnOk, IfErr};
ghost use Rattle.std.specs.Bool.{MatchBool};
ghost use Rattle.big_memory.specs.Map.{host_functions};
ghost use Rattle.switch_frame.specs.Checks.{IsFirstWrong};
ghost use Rattle.switch_frame.specs.Program.{HasGatePage, Stands, gate_long, vector_long};

use big_memory::{GATE_PAGE, HOST_FUNCTIONS, Ram, host_address, host_vector};

/// How many longs the gate page has.
const LONGS: u32 = 1024;

/// Where the gate page tells the entry of 68K code.
pub const ENTRY_PLACE: u32 = 0x1020;

/// Where it tells the main vector of PowerPC code.
pub const MAIN_VECTOR_PLACE: u32 = 0x1024;

/// Where it tells the program's A5.
pub const A5_PLACE: u32 = 0x1028;

/// Where it tells how many bytes of RAM there are.
pub const RAM_SIZE_PLACE: u32 = 0x102C;

/// Tests the longs of the gate page in order, and gives the address of the first that the page of a program
/// with this A5 has otherwise.
pub fn check_gate(ram: &Ram, a5: u32) -> Result<(), u32>
    ensures right { OnOk result (HasGatePage a5 ram.now.bytes) }
    ensures wrong { IfErr result (λ a. IsFirstWrong a5 ram.now.bytes a) }
{
    let len = ram.len();
    'longs: for k in 0..LONGS {
        let a = GATE_PAGE + 4 * k;
        if !stands(gate_long(a5, len, a), ram.read_long(a)) {
            return Err(a);
        }
    }
    Ok(())
}

/// The long that stands at an address of the gate page, or none where any value may.
#[tactic(auto, unfolding(crate::specs::Program::gate_long))]
fn gate_long(a5: u32, len: u32, a: u32) -> Option<u32>
    ensures { result ≡ gate_long a5 len a }
{
    match a {
        ENTRY_PLACE | MAIN_VECTOR_PLACE => None,
        A5_PLACE => Some(a5),
        RAM_SIZE_PLACE => Some(len),
        _ => Some(vector_long(a)),
    }
}

/// The long that stands at an address of the host functions' transition vectors, 0 outside them.
#[tactic(auto, unfolding(crate::specs::Program::vector_long))]
fn vector_long(a: u32) -> u32
    ensures { result ≡ vector_long host_functions a }
{
    let first = host_vector(0);
    if first <= a && a < first + 8 * HOST_FUNCTIONS && a % 8 == 0 {
        host_address((a - first) / 8)
    } else {
        0
    }
}

/// Whether a value is the one that is told, if one is.
fn stands(told: Option<u32>, value: u32) -> bool
    ensures { MatchBool result (Stands told value) (Stands told value → ⊥) }
{
    match told {
        None => true,
        Some(told) => value == told,
    }
}
