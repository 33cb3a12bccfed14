// A machine is made of its image.
ghost use Rattle.std.specs.Prelude.{◌≡◌, ◌⊎◌, ◌≤◌, length, Ok, Err, IfOk};
ghost use Rattle.big_memory.specs.Numbers.{AreBytes};
ghost use Rattle.mix_engine.specs.declared.machine.Machine.{Machine};
ghost use Rattle.mix_image.specs.Restoring.{IsRestored};
ghost use Rattle.mix_image.specs.inner.Restoring.{Passes};
ghost use Rattle.mix_image.specs.Spelling.{HasSpelling, spell};

use crate::ImageError;
use crate::fields::{read_fields, test_fields};
use big_memory::are_bytes;
use mix_engine::Machine;
use std::alloc::Global;
use switch_frame::{check, check_gate, guard_frames};

/// The machine whose spelling the bytes are, or the first refusal. Memory is taken once each field is right, and want of it
/// may come from then on.
pub fn restore(alloc: Global, bytes: &[u8]) -> Result<Machine, ImageError>
    ensures exact { IsRestored bytes.now result }
    ensures whole { IfOk result HasSpelling }
    ensures spelled { IfOk result (λ m. spell m ≡ bytes.now) }
    ensures only { (m : Machine) → HasSpelling m → spell m ≡ bytes.now → (result ≡ Ok m) ⊎ (result ≡ Err ImageError.NoMemory) }
{
    are_bytes(bytes);
    restore_tested(alloc, bytes)
}

fn restore_tested(alloc: Global, bytes: &[u8]) -> Result<Machine, ImageError>
    ensures { IsRestored bytes.now result }
{
    are_bytes(bytes);
    test_fields(bytes)?;
    let mut machine = read_fields(alloc, bytes)?;
    test(&machine)?;
    let top = machine.body.top;
    guard_frames(&mut machine.body.ram, top);
    Ok(machine)
}

/// Tests the gate page, and then the frames.
fn test(machine: &Machine) -> Result<(), ImageError>
    ensures { Passes machine.now result }
{
    if let Err(a) = check_gate(&machine.body.ram, machine.body.a5) {
        return Err(ImageError::Gate(a));
    }
    let (active, main) = (machine.active.isa(), machine.body.main);
    match check(&machine.body.ram, machine.body.top, active, main) {
        Ok(_) => Ok(()),
        Err(lo) => Err(ImageError::Frame(lo)),
    }
}
