ghost use Rattle.std.specs.Prelude.{◌≡◌, ◌≤◌, ◌<◌, ◌++◌, OnOk};
ghost use Rattle.gdb_answers.specs.Stops.{exit_text, process_text, reason_text, signal_by, signal_of, stop_text};

use crate::threads::{ThreadName, append_thread};
use gdb_packets::{append_hex, append_number};
use mix_bits::{Fault, FaultKind, Isa, NoMemory};

/// Why a run stands.
#[derive(Clone, Copy, Debug, PartialEq, Eq)]
pub enum Reason {
    /// Nothing ran yet, or the steps that were asked for are done.
    Stepped,
    /// A breakpoint is at the pc.
    Breakpoint,
    /// Watched bytes changed; the address is that of the watch.
    Changed(u32),
    /// Nothing lies further back.
    Begins,
    /// The program ends with the next step.
    Ends,
    /// The next step can't be done.
    Faults(Fault),
    /// gdb asked it to stop, or nothing stopped it for long.
    Interrupted,
}

/// The number of the signal that gdb is told.
pub fn signal(reason: Reason) -> u8
    ensures { result ≡ signal_of reason }
{
    match reason {
        Reason::Faults(fault) => signal_of_fault(fault),
        Reason::Interrupted => 2,
        _ => 5,
    }
}

fn signal_of_fault(fault: Fault) -> u8
    ensures { result ≡ signal_by fault.kind fault.detail }
{
    match fault.kind {
        FaultKind::Illegal | FaultKind::Privileged | FaultKind::BadInstr => 4,
        FaultKind::Trap => 5,
        FaultKind::Vector => signal_of_vector(fault.detail),
        FaultKind::Odd => 10,
        FaultKind::Outside | FaultKind::GateStore | FaultKind::FrameStore | FaultKind::GateFetch =>
            11,
        _ => 6,
    }
}

fn signal_of_vector(vector: u32) -> u8
    ensures { result ≡ signal_by FaultKind.Vector vector }
{
    if vector >= 32 { 5 } else { 8 }
}

#[tactic(auto, using(std::proofs::Common::append_assoc))]
pub fn append_stop(buffer: &mut Vec<u8>, name: ThreadName, reason: Reason) -> Result<(), NoMemory>
    ensures { OnOk result (buffer.new.items ≡ buffer.old.items ++ stop_text name reason) }
{
    buffer.push(b'T')?;
    append_hex(buffer, &[signal(reason)])?;
    buffer.extend_from_slice(b"thread:")?;
    append_thread(buffer, name)?;
    buffer.push(b';')?;
    append_reason(buffer, reason)
}

#[tactic(auto, using(std::proofs::Common::append_assoc))]
fn append_reason(buffer: &mut Vec<u8>, reason: Reason) -> Result<(), NoMemory>
    ensures { OnOk result (buffer.new.items ≡ buffer.old.items ++ reason_text reason) }
{
    match reason {
        Reason::Breakpoint => buffer.extend_from_slice(b"swbreak:;")?,
        Reason::Changed(address) => append_watch(buffer, address)?,
        Reason::Begins => buffer.extend_from_slice(b"replaylog:begin;")?,
        Reason::Ends => buffer.extend_from_slice(b"replaylog:end;")?,
        Reason::Stepped | Reason::Faults(_) | Reason::Interrupted => {}
    }
    Ok(())
}

#[tactic(auto, using(std::proofs::Common::append_assoc))]
fn append_watch(buffer: &mut Vec<u8>, address: u32) -> Result<(), NoMemory>
    ensures { OnOk result (buffer.new.items ≡ buffer.old.items ++ reason_text (Reason.Changed address)) }
{
    buffer.extend_from_slice(b"watch:")?;
    append_number(buffer, address)?;
    buffer.push(b';')?;
    Ok(())
}

#[tactic(auto, using(std::proofs::Common::append_assoc))]
pub fn append_exit(buffer: &mut Vec<u8>, name: ThreadName, code: u32) -> Result<(), NoMemory>
    ensures { OnOk result (buffer.new.items ≡ buffer.old.items ++ exit_text name code) }
{
    buffer.push(b'W')?;
    append_hex(buffer, &[(code % 256) as u8])?;
    append_process(buffer, name)
}

fn append_process(buffer: &mut Vec<u8>, name: ThreadName) -> Result<(), NoMemory>
    ensures { OnOk result (buffer.new.items ≡ buffer.old.items ++ process_text name) }
{
    match name {
        ThreadName::Only => {}
        ThreadName::Of(Isa::M68) => buffer.extend_from_slice(b";process:1")?,
        ThreadName::Of(Isa::Ppc) => buffer.extend_from_slice(b";process:2")?,
    }
    Ok(())
}
