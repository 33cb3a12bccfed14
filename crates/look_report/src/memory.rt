// The bytes around the stack pointer, and the blocks of the heap.
ghost use Rattle.std.specs.Prelude.{◌≡◌, ◌++◌, OnOk};
ghost use Rattle.std.specs.List.{flat_map};
ghost use Rattle.look_report.specs.Blocks.{block_line, bounds_line, heap_text};

use big_memory::Ram;
use host_heap::{Block, Heap};
use look_text::{Piece, add, add_line};
use mix_bits::{NoMemory, backward, onward};

/// How many bytes are told below the stack pointer, and how many from it on.
const NEAR: u32 = 32;

const ROW: u32 = 16;

/// Appends the bytes around a stack pointer, a line for each sixteen.
pub fn add_stack(text: &mut Vec<u8>, ram: &Ram, sp: u32) -> Result<(), NoMemory> {
    let from = backward(sp, NEAR);
    for row in 0..2 * NEAR / ROW {
        add_row(text, ram, onward(from, ROW * row))?;
    }
    Ok(())
}

fn add_row(text: &mut Vec<u8>, ram: &Ram, from: u32) -> Result<(), NoMemory> {
    add_line(
        text,
        &[Piece::Text("stack "), Piece::Long(from), Piece::Text(":")],
    )?;
    for k in 0..ROW {
        add_byte(text, ram, onward(from, k))?;
    }
    add(text, "\n")
}

/// Appends the byte at an address, if there is one.
pub fn add_byte(text: &mut Vec<u8>, ram: &Ram, at: u32) -> Result<(), NoMemory> {
    match ram.load_byte(at) {
        Ok(byte) => add_line(text, &[Piece::Text(" "), Piece::Byte(byte)]),
        Err(_) => add(text, " --"),
    }
}

/// Appends the bounds of the heap, and a line for each block in use.
pub fn add_heap(text: &mut Vec<u8>, heap: &Heap) -> Result<(), NoMemory>
    ensures { OnOk result (text.new.items ≡ text.old.items ++ heap_text heap.now) }
{
    add_bounds(text, heap)?;
    add_blocks(text, heap.blocks())
}

fn add_bounds(text: &mut Vec<u8>, heap: &Heap) -> Result<(), NoMemory>
    ensures { OnOk result (text.new.items ≡ text.old.items ++ bounds_line heap.now) }
{
    let (low, high) = heap.bounds();
    add_line(
        text,
        &[
            Piece::Text("heap: from "),
            Piece::Long(low),
            Piece::Text(" to "),
            Piece::Long(high),
            Piece::Text(", blocks "),
            Piece::Number(heap.count()),
            Piece::Text("\n"),
        ],
    )
}

fn add_blocks(text: &mut Vec<u8>, blocks: &[Block]) -> Result<(), NoMemory>
    ensures { OnOk result (text.new.items ≡ text.old.items ++ flat_map block_line blocks.now) }
{
    for &block in blocks {
        add_block(text, block)?;
    }
    Ok(())
}

fn add_block(text: &mut Vec<u8>, block: Block) -> Result<(), NoMemory>
    ensures { OnOk result (text.new.items ≡ text.old.items ++ block_line block) }
{
    add_line(
        text,
        &[
            Piece::Text("block: at "),
            Piece::Long(block.address),
            Piece::Text(", "),
            Piece::Number(block.size),
            Piece::Text(" bytes\n"),
        ],
    )
}
