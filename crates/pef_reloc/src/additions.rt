// Running relocation instructions.
ghost use Rattle.std.specs.Prelude.{◌≡◌, ◌+◌, ◌*◌, ◌^◌, ◌≤◌, length, OnOk};
ghost use Rattle.big_memory.specs.Memory.{Memory};
ghost use Rattle.pef_reloc.specs.Additions.{does, executed, operations, runs, turn_of};
ghost use Rattle.pef_reloc.specs.Additions.{Add, SetC, SetD};
ghost use Rattle.pef_reloc.specs.inner.Held.{Fits, budget, outcome_of, outside_of, sources_of, state_of};
ghost use Rattle.pef_reloc.specs.Lists.{times};

use crate::cursor::Cursor;
use crate::error::RelocError;
use crate::instruction::{Instruction, Turn};
use crate::section::{Source, Target, add_long, base_of, value_of};
use big_memory::Ram;

/// Adds to the long at the position.
fn add(ram: &mut Ram, cursor: &mut Cursor, target: Target, source: Source) -> Result<(), RelocError>
    requires fits { Fits target ram.old }
    requires near { cursor.old.position ≤ 2 ^ 63 }
    ensures is { outcome_of target.entry result ram.new cursor.new ≡ does (sources_of target.entry) (Add source) (state_of target.entry ram.old cursor.old) }
    ensures outside { outside_of target.entry ram.new ≡ outside_of target.entry ram.old }
    ensures len { length ram.new.bytes ≡ length ram.old.bytes }
    ensures left { cursor.new.left ≡ cursor.old.left }
    ensures over { cursor.new.over ≡ cursor.old.over }
    ensures bound { cursor.new.position ≤ cursor.old.position + 4 }
{
    if u64::from(target.total) < cursor.position + 4 {
        return Err(RelocError::OutsideSection((cursor.position % (1 << 32)) as u32));
    }
    match cursor.allowed(value_of(target, cursor, source)) {
        Ok(value) => {
            add_long(ram, target, cursor.position as u32, value);
            cursor.pass(source);
            Ok(())
        }
        Err(e) => Err(e),
    }
}

/// Takes the section with a number as section C.
fn set_c(cursor: &mut Cursor, target: Target, n: u32) -> Result<(), RelocError>
    ensures is { (m : Memory) → outcome_of target.entry result m cursor.new ≡ does (sources_of target.entry) (SetC n) (state_of target.entry m cursor.old) }
    ensures left { cursor.new.left ≡ cursor.old.left }
    ensures over { cursor.new.over ≡ cursor.old.over }
    ensures bound { cursor.new.position ≡ cursor.old.position }
{
    match cursor.allowed(base_of(target, n)) {
        Ok(base) => {
            cursor.c = base;
            Ok(())
        }
        Err(e) => Err(e),
    }
}

/// Takes the section with a number as section D.
fn set_d(cursor: &mut Cursor, target: Target, n: u32) -> Result<(), RelocError>
    ensures is { (m : Memory) → outcome_of target.entry result m cursor.new ≡ does (sources_of target.entry) (SetD n) (state_of target.entry m cursor.old) }
    ensures left { cursor.new.left ≡ cursor.old.left }
    ensures over { cursor.new.over ≡ cursor.old.over }
    ensures bound { cursor.new.position ≡ cursor.old.position }
{
    match cursor.allowed(base_of(target, n)) {
        Ok(base) => {
            cursor.d = base;
            Ok(())
        }
        Err(e) => Err(e),
    }
}

/// What a turn of a run does.
fn take_turn(
    ram: &mut Ram,
    cursor: &mut Cursor,
    target: Target,
    turn: Turn,
) -> Result<(), RelocError>
    requires fits { Fits target ram.old }
    requires near { cursor.old.position ≤ 2 ^ 62 }
    ensures is { outcome_of target.entry result ram.new cursor.new ≡ runs (sources_of target.entry) (turn_of turn) (state_of target.entry ram.old cursor.old) }
    ensures outside { outside_of target.entry ram.new ≡ outside_of target.entry ram.old }
    ensures len { length ram.new.bytes ≡ length ram.old.bytes }
    ensures left { cursor.new.left ≡ cursor.old.left }
    ensures over { cursor.new.over ≡ cursor.old.over }
    ensures bound { cursor.new.position ≤ cursor.old.position + 12 }
{
    match turn {
        Turn::SectC => add(ram, cursor, target, Source::FromC),
        Turn::SectD => add(ram, cursor, target, Source::FromD),
        Turn::TVector12 => {
            add(ram, cursor, target, Source::FromC)?;
            add(ram, cursor, target, Source::FromD)?;
            cursor.skip(4);
            Ok(())
        }
        Turn::TVector8 => {
            add(ram, cursor, target, Source::FromC)?;
            add(ram, cursor, target, Source::FromD)
        }
        Turn::VTable8 => {
            add(ram, cursor, target, Source::FromD)?;
            cursor.skip(4);
            Ok(())
        }
        Turn::ImportRun => add(ram, cursor, target, Source::FromImport),
    }
}

/// So many turns of a run.
fn take_turns(
    ram: &mut Ram,
    cursor: &mut Cursor,
    target: Target,
    turn: Turn,
    count: u32,
) -> Result<(), RelocError>
    requires fits { Fits target ram.old }
    requires near { cursor.old.position ≤ 2 ^ 61 }
    ensures is { outcome_of target.entry result ram.new cursor.new ≡ runs (sources_of target.entry) (times count (turn_of turn)) (state_of target.entry ram.old cursor.old) }
    ensures outside { outside_of target.entry ram.new ≡ outside_of target.entry ram.old }
    ensures len { length ram.new.bytes ≡ length ram.old.bytes }
    ensures left { cursor.new.left ≡ cursor.old.left }
    ensures over { cursor.new.over ≡ cursor.old.over }
    ensures bound { cursor.new.position ≤ cursor.old.position + 12 * count }
{
    for _turn in 0..count {
        take_turn(ram, cursor, target, turn)?;
    }
    Ok(())
}

/// What an instruction does.
fn perform(
    ram: &mut Ram,
    cursor: &mut Cursor,
    target: Target,
    instruction: Instruction,
) -> Result<(), RelocError>
    requires fits { Fits target ram.old }
    requires near { cursor.old.position ≤ 2 ^ 60 }
    ensures is { outcome_of target.entry result ram.new cursor.new ≡ runs (sources_of target.entry) (operations instruction) (state_of target.entry ram.old cursor.old) }
    ensures outside { outside_of target.entry ram.new ≡ outside_of target.entry ram.old }
    ensures len { length ram.new.bytes ≡ length ram.old.bytes }
    ensures left { cursor.new.left ≡ cursor.old.left }
    ensures over { cursor.new.over ≡ cursor.old.over }
    ensures bound { cursor.new.position ≤ cursor.old.position + 2 ^ 36 }
{
    match instruction {
        Instruction::BySectDWithSkip(skip, count) => {
            cursor.skip(4 * u64::from(skip));
            take_turns(ram, cursor, target, Turn::SectD, count)
        }
        Instruction::Run(turn, count) => take_turns(ram, cursor, target, turn, count),
        Instruction::ByImport(n) => {
            cursor.index = n;
            add(ram, cursor, target, Source::FromImport)
        }
        Instruction::SetSectC(n) => set_c(cursor, target, n),
        Instruction::SetSectD(n) => set_d(cursor, target, n),
        Instruction::BySection(n) => add(ram, cursor, target, Source::FromSection(n)),
        Instruction::IncrPosition(n) => {
            cursor.skip(u64::from(n));
            Ok(())
        }
        Instruction::SetPosition(n) => {
            cursor.position = u64::from(n);
            Ok(())
        }
    }
}

/// Counts an instruction, and runs it.
pub fn execute(
    ram: &mut Ram,
    cursor: &mut Cursor,
    target: Target,
    instruction: Instruction,
) -> Result<(), RelocError>
    requires fits { Fits target ram.old }
    requires near { budget cursor.old ≤ 2 ^ 60 }
    ensures is { outcome_of target.entry result ram.new cursor.new ≡ executed (sources_of target.entry) instruction (state_of target.entry ram.old cursor.old) }
    ensures outside { outside_of target.entry ram.new ≡ outside_of target.entry ram.old }
    ensures len { length ram.new.bytes ≡ length ram.old.bytes }
    ensures bound { OnOk result (budget cursor.new ≤ budget cursor.old) }
{
    cursor.begin();
    perform(ram, cursor, target, instruction)?;
    cursor.finish()
}
