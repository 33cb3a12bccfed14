// Steps as text.
ghost use Rattle.std.specs.Prelude.{◌≡◌, []};

use crate::history::{Jump, Run};
use crate::step::Step;
use big_memory::{host_code, in_gate_page};
use look_text::{Piece, add, add_line};
use mix_bits::{Isa, Line, NoMemory};
use mix_text::write_words;
use ppc_text::text_ppc;

/// Appends a line for each run of the last steps, the last of which has the number `last`.
pub fn add_runs(text: &mut Vec<u8>, runs: &[Run], last: u32) -> Result<(), NoMemory> {
    let mut behind = runs
        .iter()
        .fold(0, |sum: u32, run| sum.saturating_add(run.times));
    for run in runs {
        let before = last.saturating_sub(behind);
        add_run(text, run, before.saturating_add(1))?;
        behind = behind.saturating_sub(run.times);
    }
    Ok(())
}

/// Appends `step NUMBER: SET ADDRESS: TEXT`, or the same of several equal steps, the first of which has this number.
fn add_run(text: &mut Vec<u8>, run: &Run, number: u32) -> Result<(), NoMemory> {
    if run.times <= 1 {
        add_line(
            text,
            &[
                Piece::Text("step "),
                Piece::Number(number),
                Piece::Text(": "),
            ],
        )?;
        return add_step(text, &run.first);
    }
    add_line(
        text,
        &[
            Piece::Text("steps "),
            Piece::Number(number),
            Piece::Text(" to "),
            Piece::Number(number.saturating_add(run.times - 1)),
            Piece::Text(", up to "),
            Piece::Long(run.last_at),
            Piece::Text(": "),
        ],
    )?;
    add_step(text, &run.first)
}

/// Appends where the program went on elsewhere at last.
pub fn add_jump(text: &mut Vec<u8>, jump: &Jump) -> Result<(), NoMemory> {
    add_line(
        text,
        &[
            Piece::Text("last jump: to "),
            Piece::Long(jump.to),
            Piece::Text(", by step "),
            Piece::Number(jump.number),
            Piece::Text(": "),
        ],
    )?;
    add_step(text, &jump.from)
}

/// Appends the set, the address and the text of a step.
pub fn add_step(text: &mut Vec<u8>, step: &Step) -> Result<(), NoMemory> {
    let set = match step.set {
        Isa::M68 => "68k ",
        Isa::Ppc => "ppc ",
    };
    add_line(
        text,
        &[Piece::Text(set), Piece::Long(step.at), Piece::Text(": ")],
    )?;
    if in_gate_page(step.at) {
        add_gate(text, step.at)
    } else {
        add_instruction(text, step)
    }
}

/// Appends what the gate page has at an address.
fn add_gate(text: &mut Vec<u8>, at: u32) -> Result<(), NoMemory> {
    match host_code(at) {
        Some(k) => add_line(
            text,
            &[
                Piece::Text("host function "),
                Piece::Number(k),
                Piece::Text("\n"),
            ],
        ),
        None => add(text, "the gate page\n"),
    }
}

fn add_instruction(text: &mut Vec<u8>, step: &Step) -> Result<(), NoMemory> {
    let mut line = Line::new();
    match step.set {
        Isa::M68 => write_m68(&mut line, step.words.as_slice(), step.at),
        Isa::Ppc => write_ppc(&mut line, step.words.as_slice(), step.at),
    }
    add_line(text, &[Piece::Bytes(line.bytes()), Piece::Text("\n")])
}

/// Writes the text of the words of 68K code.
fn write_m68(line: &mut Line, words: &[u16], at: u32)
    requires { line.old ≡ [] }
{
    if write_words(words, at, line).is_none() {
        line.add("it does not lie in RAM");
    }
}

/// Writes the text of the word of PowerPC code.
fn write_ppc(line: &mut Line, words: &[u16], at: u32)
    requires { line.old ≡ [] }
{
    match words {
        [high, low, ..] => text_ppc(u32::from(*high) * 65536 + u32::from(*low), at, line),
        _ => line.add("it does not lie in RAM"),
    }
}
