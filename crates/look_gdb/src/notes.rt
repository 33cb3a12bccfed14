// What is told on the console behind the output of a program.
ghost use Rattle.std.specs.Prelude.{◌≡◌, ◌++◌, OnOk};
ghost use Rattle.call_trace.specs.Lines.{end_line};
ghost use Rattle.look_gdb.specs.Notes.{last_line, note_of, spent_note, spent_text, strayed_text};

use crate::heard::Heard;
use call_trace::{End, put_end};
use gdb_steps::Halt as Came;
use gdb_talk::Goal;
use mix_bits::{Isa, Line, NoMemory};
use mix_engine::Stop;
use mix_io::Failed;
use std::alloc::Global;

/// What a note at the end of a walk goes by.
#[derive(Clone, Copy)]
pub struct Ending {
    /// Whether the end of the program was told before.
    pub is_told: bool,
    /// The set whose code is active.
    pub set: Isa,
    /// What was asked for.
    pub goal: Goal,
    /// How many steps a walk has at most.
    pub budget: u32,
    /// Why the walk ended.
    pub came: Came,
}

/// Appends what is told at the end of a walk.
pub fn append_note(alloc: Global, console: &mut Vec<u8>, ending: Ending) -> Result<(), NoMemory>
    ensures { OnOk result (console.new.items ≡ console.old.items ++ note_of ending.is_told ending.set ending.goal ending.budget ending.came) }
{
    match ending.came {
        Came::Spent => append_spent_note(console, ending.goal, ending.budget),
        Came::Strayed => append(console, b"a device did not answer again as before\n"),
        Came::End(stop) => {
            if ending.is_told {
                Ok(())
            } else {
                append_last_line(alloc, console, ending.set, stop)
            }
        }
        _ => Ok(()),
    }
}

fn append_spent_note(console: &mut Vec<u8>, goal: Goal, budget: u32) -> Result<(), NoMemory>
    ensures { OnOk result (console.new.items ≡ console.old.items ++ spent_note goal budget) }
{
    match goal {
        Goal::Step => Ok(()),
        Goal::Stop | Goal::StepOf(_) => append_spent(console, budget),
    }
}

#[tactic(auto, using(std::proofs::Common::append_assoc))]
fn append_spent(console: &mut Vec<u8>, budget: u32) -> Result<(), NoMemory>
    ensures { OnOk result (console.new.items ≡ console.old.items ++ spent_text budget) }
{
    let mut number = Line::new();
    number.add_dec(budget);
    append(console, b"no stop within ")?;
    append(console, number.bytes())?;
    append(
        console,
        b" steps; monitor budget N sets how many a walk may have\n",
    )
}

fn append_last_line(
    alloc: Global,
    console: &mut Vec<u8>,
    set: Isa,
    stop: Stop,
) -> Result<(), NoMemory>
    ensures { OnOk result (console.new.items ≡ console.old.items ++ last_line set stop) }
{
    match stop {
        Stop::Exit(code) => append_end(alloc, console, &End::Exit(code)),
        Stop::Fault(fault) => append_end(alloc, console, &End::Fault(set, fault)),
        _ => Ok(()),
    }
}

fn append_end(alloc: Global, console: &mut Vec<u8>, end: &End) -> Result<(), NoMemory>
    ensures { OnOk result (console.new.items ≡ console.old.items ++ end_line end.now) }
{
    let mut line = Heard::new(alloc, true);
    match put_end(&mut line, end) {
        Ok(()) => line.tell(console),
        Err(Failed) => Err(NoMemory),
    }
}

fn append(console: &mut Vec<u8>, text: &[u8]) -> Result<(), NoMemory>
    ensures { OnOk result (console.new.items ≡ console.old.items ++ text.now) }
{
    console.extend_from_slice(text)?;
    Ok(())
}
