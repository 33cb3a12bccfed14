ghost use Rattle.std.specs.Prelude.{◌≡◌, ◌++◌, OnOk};
ghost use Rattle.switch_frame.specs.Chain.{Links, records};
ghost use Rattle.gdb_answers.specs.Answers.{answer_text, console_text, features_of, memory_seen, memory_text, scene_of};
ghost use Rattle.gdb_answers.specs.Stops.{thread_text};

use crate::answer::Answer;
use crate::descriptions::description;
use crate::parts::{append_error, append_memory, append_window};
use crate::registers::{append_numbered, append_registers, shown};
use crate::stops::{append_exit, append_stop};
use crate::threads::{ThreadName, append_thread};
use big_memory::Ram;
use gdb_packets::append_hex;
use mix_bits::NoMemory;
use switch_frame::Active;

/// Appends the data of the packet that is an answer, from a machine with these registers, whose suspended callers stand in
/// RAM from the frame at `lo` on (GDB manual, appendix 'GDB Remote Serial Protocol').
pub fn append_answer(
    buffer: &mut Vec<u8>,
    answer: Answer,
    active: &Active,
    ram: &Ram,
    lo: u32,
) -> Result<(), NoMemory>
    requires { Links ram.now lo (records ram.now.bytes lo) }
    ensures { OnOk result (buffer.new.items ≡ buffer.old.items ++ answer_text (scene_of active.now ram.now lo) answer) }
{
    match answer {
        Answer::Unknown => Ok(()),
        Answer::Done => append_text(buffer, b"OK"),
        Answer::Refused => append_error(buffer),
        Answer::Supported(processes) => append_features(buffer, processes),
        Answer::ResumeWords => append_text(buffer, b"vCont;c;C;s;S"),
        Answer::Registers(set) => append_registers(buffer, &shown(set, active, ram, lo)),
        Answer::Register(set, number) => {
            append_numbered(buffer, &shown(set, active, ram, lo), number)
        }
        Answer::Memory(address, count) => append_seen(buffer, ram, lo, address, count),
        Answer::Description(set, offset, count) => {
            append_window(buffer, description(set), offset, count)
        }
        Answer::Thread(name) => append_named(buffer, b"m", name),
        Answer::BothThreads => append_text(buffer, b"mp1.1,p2.2"),
        Answer::NoMoreThreads => append_text(buffer, b"l"),
        Answer::Current(name) => append_named(buffer, b"QC", name),
        Answer::IsAttached => append_text(buffer, b"1"),
        Answer::Stopped(name, reason) => append_stop(buffer, name, reason),
        Answer::Exited(name, code) => append_exit(buffer, name, code),
    }
}

/// Appends the data of a packet with text for gdb's console.
#[tactic(auto, using(std::proofs::Common::append_assoc))]
pub fn append_console(buffer: &mut Vec<u8>, bytes: &[u8]) -> Result<(), NoMemory>
    ensures { OnOk result (buffer.new.items ≡ buffer.old.items ++ console_text bytes.now) }
{
    buffer.push(b'O')?;
    append_hex(buffer, bytes)
}

fn append_text(buffer: &mut Vec<u8>, text: &[u8]) -> Result<(), NoMemory>
    ensures { OnOk result (buffer.new.items ≡ buffer.old.items ++ text.now) }
{
    buffer.extend_from_slice(text)?;
    Ok(())
}

#[tactic(auto, using(std::proofs::Common::append_assoc))]
fn append_named(buffer: &mut Vec<u8>, word: &[u8], name: ThreadName) -> Result<(), NoMemory>
    ensures { OnOk result (buffer.new.items ≡ buffer.old.items ++ word.now ++ thread_text name) }
{
    append_text(buffer, word)?;
    append_thread(buffer, name)
}

fn append_features(buffer: &mut Vec<u8>, processes: bool) -> Result<(), NoMemory>
    ensures { OnOk result (buffer.new.items ≡ buffer.old.items ++ features_of processes) }
{
    if processes {
        append_text(
            buffer,
            b"PacketSize=4000;QStartNoAckMode+;qXfer:features:read+;ReverseStep+;ReverseContinue+;swbreak+;hwbreak+;vContSupported+;multiprocess+",
        )
    } else {
        append_text(
            buffer,
            b"PacketSize=4000;QStartNoAckMode+;qXfer:features:read+;ReverseStep+;ReverseContinue+;swbreak+;hwbreak+;vContSupported+",
        )
    }
}

/// Appends bytes of memory as loads see them.
fn append_seen(
    buffer: &mut Vec<u8>,
    ram: &Ram,
    lo: u32,
    address: u32,
    count: u32,
) -> Result<(), NoMemory>
    requires { Links ram.now lo (records ram.now.bytes lo) }
    ensures { OnOk result (buffer.new.items ≡ buffer.old.items ++ memory_text (memory_seen ram.now lo) address count) }
{
    append_memory(buffer, ram.bytes(), address, count)
}
