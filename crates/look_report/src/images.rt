// Machines that were kept.
ghost use Rattle.std.specs.Prelude.{◌≢◌, ◌≤◌, IfErr, length};
ghost use Rattle.switch_frame.specs.Records.{isa_of};
ghost use Rattle.mixed_machine.specs.Machine.{IsWhole};

use crate::dump::dump;
use crate::machine::machine_report;
use crate::refused::image_text;
use look_words::status::REFUSED;
use look_words::{Failure, Frames, Span};
use mix_bits::NoMemory;
use mix_engine::Machine;
use mix_image::{ImageError, restore};
use std::alloc::Global;

/// The report of the machine in a file's bytes, or the bytes of a part of its memory.
#[tactic(auto, using(crate::proofs::Kept::spelled_whole))]
pub fn image_report(
    alloc: Global,
    name: &str,
    bytes: &[u8],
    span: Option<Span>,
    frames: Frames,
) -> Result<Vec<u8>, Failure>
    requires { length bytes.now ≤ 17825792 }
    ensures { IfErr result (λ failure. failure.status ≢ 2) }
{
    match restore(alloc, bytes) {
        Ok(machine) => match told(alloc, &machine, span, frames) {
            Ok(text) => Ok(text),
            Err(NoMemory) => Err(Failure::no_memory()),
        },
        Err(ImageError::NoMemory) => Err(Failure::no_memory()),
        Err(error) => Err(Failure::told(image_text(alloc, name, error), REFUSED)),
    }
}

/// What is told of a machine.
fn told(
    alloc: Global,
    machine: &Machine,
    span: Option<Span>,
    frames: Frames,
) -> Result<Vec<u8>, NoMemory>
    requires { IsWhole machine.now.body (isa_of machine.now.active) }
{
    match span {
        Some(span) => dump(alloc, &machine.body.ram, span),
        None => machine_report(alloc, machine, frames),
    }
}
