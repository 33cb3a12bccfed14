// How often each trap stands in the code.
use crate::code::lacks;
use look_text::{Piece, add, add_line};
use mix_bits::NoMemory;
use std::alloc::Global;
use std::collections::BTreeMap;
use trap_names::trap_name;

/// Appends a line for each of these traps, with how often it stands there, what it calls where that is known, and whether
/// the library has it.
pub fn add_counts(alloc: Global, text: &mut Vec<u8>, traps: &[u16]) -> Result<(), NoMemory> {
    let mut counts: BTreeMap<u16, u32> = BTreeMap::new(alloc);
    for trap in traps {
        let before = counts.get(trap).copied().unwrap_or(0);
        counts.insert(*trap, before.saturating_add(1))?;
    }
    for (trap, count) in counts.iter() {
        add_count(text, *trap, *count)?;
    }
    Ok(())
}

fn add_count(text: &mut Vec<u8>, trap: u16, count: u32) -> Result<(), NoMemory> {
    add(text, "trap ")?;
    add_trap(text, trap)?;
    add_line(
        text,
        &[
            Piece::Text(": "),
            Piece::Number(count),
            Piece::Text(if lacks(trap) {
                ", not in the library\n"
            } else {
                ", in the library\n"
            }),
        ],
    )
}

/// Appends a trap word, and the name of what it calls.
pub fn add_trap(text: &mut Vec<u8>, trap: u16) -> Result<(), NoMemory> {
    add_line(text, &[Piece::Word(u32::from(trap))])?;
    match trap_name(trap) {
        Some(name) => add_line(text, &[Piece::Text(" "), Piece::Text(name)]),
        None => Ok(()),
    }
}
