//! Runs a program that lies in memory, beside a device of one's own: once by the words of a command line, and once by the
//! calls below them. It prints what the program put, its trace, and what the device was asked.
//!
//! The numbers that it must print were worked out by hand: 7 * 7 = 49 is the character 1, and 9 * 9 = 81 is Q.
#![tactic(auto)]

mod squares;

ghost use Rattle.std.specs.Prelude.{IfOk};
ghost use Rattle.mix_bits.specs.declared.isa.Isa.TheVariants.{M68};
ghost use Rattle.mix_load.specs.LoadClauses.{AreLoadable};

use dev_rack::{Asked, Devices, Rack};
use mix_bits::Isa;
use mix_engine::{Machine, run};
use mix_io::{Device, MemKeep, MemShelf, MemSink, MemSource, NoMemory, Sink, StdSink};
use mix_load::{FileBytes, Files, load};
use mix_top::mixed_main_counted;
use squares::Squares;
use std::alloc::Global;

/// 68K code: asks slot 0 for the squares of 7 and 9, puts the low byte of each, and exits.
const IMAGE: [u8; 22] = [
    0x70, 0x00, 0x72, 0x07, 0xAA, 0x83, 0x20, 0x01, 0xAA, 0x80, // moveq, moveq, AskDevice, move.l, PutByte
    0x70, 0x00, 0x72, 0x09, 0xAA, 0x83, 0x20, 0x01, 0xAA, 0x80, // the same with 9
    0xA9, 0xF4, // ExitToShell
];

/// What a run reads and writes.
#[derive(Drop)]
struct Streams {
    input: MemSource,
    out: MemSink,
    trace: MemSink,
}

fn main(rt: HostRuntime) -> anyhow::Result<()> {
    by_words(&rt, rt.alloc())?;
    by_calls(&rt, rt.alloc())
}

/// Runs the words of a command line, as the program mixedrun does, over objects in memory.
fn by_words(rt: &HostRuntime, alloc: Global) -> anyhow::Result<()> {
    let words = words(alloc)?;
    let mut shelf = shelf(alloc)?;
    let mut keep = MemKeep::new(alloc, String::new(alloc), 0, Vec::new(alloc))?;
    let device: Box<dyn Device> = Box::new(alloc, Squares::new(alloc)?)?;
    let mut rack = Rack::new(alloc, vec![in alloc; device]?)?;
    let Streams {
        mut input,
        mut out,
        mut trace,
    } = empty_streams(alloc)?;
    let ending = mixed_main_counted(
        alloc, &words, &mut shelf, &mut input, &mut out, &mut trace, &mut rack, &mut keep,
    );
    println!(rt; "status {}, {} steps", ending.status, ending.steps)?;
    tell(rt, &out, &trace, rack.journal())
}

/// Loads the program, starts a machine and runs it, without words; then asks the device that is given back.
fn by_calls(rt: &HostRuntime, alloc: Global) -> anyhow::Result<()> {
    let program = load(alloc, &files(alloc)?, Isa::M68, 128)?;
    let mut machine = Machine::start(alloc, program)?;
    let device: Box<dyn Device> = Box::new(alloc, Squares::new(alloc)?)?;
    let mut rack = Rack::new(alloc, vec![in alloc; device]?)?;
    let Streams {
        mut input,
        mut out,
        mut trace,
    } = empty_streams(alloc)?;
    let stop = run(
        &mut machine,
        &mut input,
        &mut out,
        &mut trace,
        &mut rack,
        1000,
    );
    println!(rt; "{stop:?}")?;
    tell(rt, &out, &trace, rack.journal())?;
    ask_again(rt, rack)
}

fn words(alloc: Global) -> Result<Vec<String>, NoMemory> {
    let run = String::from_str(alloc, "run")?;
    let flat = String::from_str(alloc, "flat=squares")?;
    Ok(vec![in alloc; run, flat]?)
}

/// The files by their names.
fn shelf(alloc: Global) -> Result<MemShelf, NoMemory> {
    let names = vec![in alloc; String::from_str(alloc, "squares")?]?;
    let contents = vec![in alloc; Vec::from_slice(alloc, &IMAGE)?]?;
    Ok(MemShelf::new(names, contents, Vec::new(alloc)))
}

/// The files of a program: a flat one.
fn files(alloc: Global) -> Result<Files, NoMemory>
    ensures { IfOk result (λ files. AreLoadable files M68) }
{
    let bytes = Vec::from_slice(alloc, &IMAGE)?;
    Ok(Files {
        flat: Some(FileBytes::of(bytes)),
        rsrc: None,
        pef: None,
    })
}

/// No input, and room for 1024 bytes of output and of trace.
fn empty_streams(alloc: Global) -> Result<Streams, NoMemory> {
    Ok(Streams {
        input: MemSource::new(Vec::new(alloc), Vec::new(alloc)),
        out: MemSink::new(alloc, 1024, Vec::new(alloc))?,
        trace: MemSink::new(alloc, 1024, Vec::new(alloc))?,
    })
}

/// Prints what a run gave.
fn tell(rt: &HostRuntime, out: &MemSink, trace: &MemSink, asks: &[Asked]) -> anyhow::Result<()> {
    let mut stdout = StdSink::new(rt.stdout());
    let _ = stdout.put(out.held());
    let _ = stdout.put(b"\n");
    let _ = stdout.put(trace.held());
    for ask in asks {
        println!(rt; "{ask:?}")?;
    }
    Ok(())
}

/// Asks the devices of a rack for the square of 11.
fn ask_again(rt: &HostRuntime, rack: Rack) -> anyhow::Result<()> {
    for mut device in rack.into_devices().into_iter().flatten() {
        println!(rt; "{:?}", device.ask(11))?;
    }
    Ok(())
}
