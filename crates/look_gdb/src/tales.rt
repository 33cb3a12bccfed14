// What commands tell.
ghost use Rattle.std.specs.Prelude.{◌≡◌, ◌++◌, [], OnOk};
ghost use Rattle.switch_frame.specs.Records.{isa_of};
ghost use Rattle.mixed_machine.specs.Machine.{IsWhole, callers_of};
ghost use Rattle.mix_debug.specs.CrawlClauses.{crawl_of};
ghost use Rattle.look_text.specs.Info.{info_of};
ghost use Rattle.look_report.specs.Callers.{frames_text};
ghost use Rattle.look_gdb.specs.Commands.{flush_text, help_text, steps_text, tale_text};

use crate::command::Tale;
use crate::heard::Heard;
use itoa::Buffer;
use look_report::{add_frames, add_heap};
use look_text::info_text;
use mix_bits::NoMemory;
use mix_debug::Debug;
use mix_engine::Machine;
use mix_io::Failed;
use std::alloc::Global;

/// Which commands there are.
const HELP: &[u8] = b"\
monitor budget N: a walk stops after N steps at the latest
monitor go N: goes to the place behind N steps, forward or back
monitor where: how many steps were done, the code that runs, and each suspended caller
monitor step: how many steps were done
monitor calls: each open call across, with its procInfo in words
monitor info HHHHHHHH: a procInfo in words
monitor heap: the blocks of the heap
monitor help: this
";

/// Puts what is told of a machine behind so many steps into an empty buffer.
pub fn append_tale(
    alloc: Global,
    tale: Tale,
    debug: &Debug,
    steps: u64,
    console: &mut Vec<u8>,
) -> Result<(), NoMemory>
    requires { console.old.items ≡ [] }
    ensures { OnOk result (console.new.items ≡ tale_text tale debug.now.machine steps) }
{
    match tale {
        Tale::Where => append_where(alloc, debug, steps, console),
        Tale::Step => append_steps(console, steps),
        Tale::Calls => append_calls(alloc, console, debug.machine()),
        Tale::Heap => add_heap(console, &debug.machine().body.heap),
        Tale::Info(word) => append_info(alloc, console, word),
        Tale::Help => append_help(console),
    }
}

/// Appends where a machine came by a command, and how gdb sees it.
pub fn append_place(
    alloc: Global,
    debug: &Debug,
    steps: u64,
    console: &mut Vec<u8>,
) -> Result<(), NoMemory>
    ensures { OnOk result (console.new.items ≡ console.old.items ++ tale_text Tale.Where debug.now.machine steps ++ flush_text) }
{
    append_where(alloc, debug, steps, console)?;
    append(
        console,
        b"maintenance flush register-cache makes gdb read the registers anew\n",
    )
}

#[tactic(auto, using(std::proofs::Common::append_assoc))]
fn append_where(
    alloc: Global,
    debug: &Debug,
    steps: u64,
    console: &mut Vec<u8>,
) -> Result<(), NoMemory>
    ensures { OnOk result (console.new.items ≡ console.old.items ++ tale_text Tale.Where debug.now.machine steps) }
{
    append_steps(console, steps)?;
    append_crawl(alloc, console, debug)
}

#[tactic(auto, using(std::proofs::Common::append_assoc))]
fn append_steps(console: &mut Vec<u8>, steps: u64) -> Result<(), NoMemory>
    ensures { OnOk result (console.new.items ≡ console.old.items ++ steps_text steps) }
{
    let mut number = Buffer::new();
    append(console, b"step ")?;
    append(console, number.format(steps).as_bytes())?;
    append(console, b"\n")
}

fn append_crawl(alloc: Global, console: &mut Vec<u8>, debug: &Debug) -> Result<(), NoMemory>
    ensures { OnOk result (console.new.items ≡ console.old.items ++ crawl_of debug.now.machine) }
{
    let mut lines = Heard::new(alloc, true);
    match debug.crawl(&mut lines) {
        Ok(()) => lines.tell(console),
        Err(Failed) => Err(NoMemory),
    }
}

fn append_calls(alloc: Global, console: &mut Vec<u8>, machine: &Machine) -> Result<(), NoMemory>
    requires { IsWhole machine.now.body (isa_of machine.now.active) }
    ensures { OnOk result (console.new.items ≡ console.old.items ++ frames_text 0 1 (callers_of machine.now.body)) }
{
    add_frames(alloc, console, &machine.body.ram, machine.body.top, 0)
}

fn append_info(alloc: Global, console: &mut Vec<u8>, word: u32) -> Result<(), NoMemory>
    ensures { OnOk result (console.new.items ≡ console.old.items ++ info_of word) }
{
    let text = info_text(alloc, word)?;
    append(console, &text)
}

#[tactic(auto, unfolding(crate::specs::Commands::help_text))]
fn append_help(console: &mut Vec<u8>) -> Result<(), NoMemory>
    ensures { OnOk result (console.new.items ≡ console.old.items ++ help_text) }
{
    append(console, HELP)
}

fn append(console: &mut Vec<u8>, text: &[u8]) -> Result<(), NoMemory>
    ensures { OnOk result (console.new.items ≡ console.old.items ++ text.now) }
{
    console.extend_from_slice(text)?;
    Ok(())
}
