// A machine is kept by its spelling.
ghost use Rattle.std.specs.Prelude.{◌≡◌, ◌+◌, ◌*◌, ◌/◌, ◌%◌, ◌≤◌, ◌++◌, length, is_err};
ghost use Rattle.std.specs.Int.{w32, to_be_bytes};
ghost use Rattle.big_memory.specs.Numbers.{AreLongs, bytes_of_longs};
ghost use Rattle.mix_io.specs.CountsClauses.{NamedCause};
ghost use Rattle.mix_io.specs.KeptClauses.{Saves};
ghost use Rattle.switch_frame.specs.Chain.{IsFile};
ghost use Rattle.switch_frame.specs.Records.{isa_of, longs_of_file};
ghost use Rattle.mixed_machine.specs.Machine.{IsWhole};
ghost use Rattle.mix_image.specs.Spelling.{HasSpelling, block_longs, head_longs, page as page_of, pages, set_number, spell, tail_longs};

use crate::longs::{MARK_FIRST, MARK_SECOND};
use crate::memory::{PAGE, is_blank};
use arrayvec::ArrayVec;
use host_heap::Block;
use m68_isa::Regs68;
use mix_bits::{Isa, append};
use mix_engine::Machine;
use mix_io::{Failed, Keeper};
use ppc_isa::RegsPpc;
use switch_frame::Active;

/// How many blocks are kept as one piece at the most.
const BLOCKS: usize = 32;

/// Bytes that are kept at once.
type Piece = ArrayVec<u8, 256>;

/// Keeps the spelling of a whole machine behind what was kept by this name, or a beginning of it where the keeper fails. It
/// takes no memory.
pub fn save<K: Keeper>(m: &Machine, keep: &mut K, name: &str) -> Result<(), Failed>
    requires { IsWhole m.now.body (isa_of m.now.active) }
    ensures bytes { Saves (K.kept keep.old) (K.kept keep.new) name.now (spell m.now) result }
    ensures cause { NamedCause (K.faults keep.old) (K.faults keep.new) name.now (is_err result) }
    ensures spelled { HasSpelling m.now }
{
    has_spelling(m);
    save_head(m, keep, name)?;
    save_blocks(m.body.heap.blocks(), keep, name)?;
    save_registers(m, keep, name)?;
    save_pages(m.body.ram.bytes(), keep, name)
}

/// What every whole machine meets. It does nothing: the clause is its point.
fn has_spelling(m: &Machine)
    requires { IsWhole m.now.body (isa_of m.now.active) }
    ensures { HasSpelling m.now }
{
    let _ = m.body.ram.bytes();
    m.body.heap.every_heap_is_sound();
    let _a5 = m.body.a5;
    is_file(&m.active);
}

fn is_file(active: &Active)
    ensures { IsFile active.now }
{
    match active {
        Active::M68(file) => is_m68(file),
        Active::Ppc(file) => is_ppc(file),
    }
}

fn is_m68(file: &Regs68)
    ensures { IsFile (Active.M68 file.now) }
{
    are_longs(&file.d);
    are_longs(&file.a);
    are_longs(&[file.pc]);
}

fn is_ppc(file: &RegsPpc)
    ensures { IsFile (Active.Ppc file.now) }
{
    are_longs(&file.gpr);
    are_longs(&[file.cr, file.lr, file.ctr, file.xer, file.pc]);
}

fn are_longs(longs: &[u32])
    ensures { AreLongs (length longs.now) longs.now }
{}

fn save_head<K: Keeper>(m: &Machine, keep: &mut K, name: &str) -> Result<(), Failed>
    ensures bytes { Saves (K.kept keep.old) (K.kept keep.new) name.now (bytes_of_longs (head_longs m.now)) result }
    ensures cause { NamedCause (K.faults keep.old) (K.faults keep.new) name.now (is_err result) }
{
    let (low, high) = m.body.heap.bounds();
    let longs = [
        MARK_FIRST,
        MARK_SECOND,
        m.body.ram.len() / 1024,
        m.body.a5,
        set_number(m.body.main),
        m.body.start_sp,
        low,
        high,
        m.body.heap.count(),
    ];
    save_longs(&longs, keep, name)
}

/// The number of an instruction set.
fn set_number(set: Isa) -> u32
    ensures { result ≡ set_number set }
{
    match set {
        Isa::M68 => 0,
        Isa::Ppc => 1,
    }
}

fn save_blocks<K: Keeper>(blocks: &[Block], keep: &mut K, name: &str) -> Result<(), Failed>
    ensures bytes { Saves (K.kept keep.old) (K.kept keep.new) name.now (bytes_of_longs (block_longs blocks.now)) result }
    ensures cause { NamedCause (K.faults keep.old) (K.faults keep.new) name.now (is_err result) }
{
    let mut done = 0;
    'each: while done < blocks.len() {
        let end = (done + BLOCKS).min(blocks.len());
        save_some(&blocks[done..end], keep, name)?;
        done = end;
    }
    Ok(())
}

/// Keeps blocks as one piece.
fn save_some<K: Keeper>(blocks: &[Block], keep: &mut K, name: &str) -> Result<(), Failed>
    requires { length blocks.now ≤ 32 }
    ensures bytes { Saves (K.kept keep.old) (K.kept keep.new) name.now (bytes_of_longs (block_longs blocks.now)) result }
    ensures cause { NamedCause (K.faults keep.old) (K.faults keep.new) name.now (is_err result) }
{
    let mut piece = Piece::new();
    'each: for block in blocks {
        put_long(&mut piece, block.address);
        put_long(&mut piece, block.size);
    }
    keep.keep(name, &piece)
}

fn save_registers<K: Keeper>(m: &Machine, keep: &mut K, name: &str) -> Result<(), Failed>
    ensures bytes { Saves (K.kept keep.old) (K.kept keep.new) name.now (bytes_of_longs (tail_longs m.now)) result }
    ensures cause { NamedCause (K.faults keep.old) (K.faults keep.new) name.now (is_err result) }
{
    save_longs(&[m.body.top, set_number(m.active.isa())], keep, name)?;
    save_file(&m.active, keep, name)
}

fn save_file<K: Keeper>(active: &Active, keep: &mut K, name: &str) -> Result<(), Failed>
    ensures bytes { Saves (K.kept keep.old) (K.kept keep.new) name.now (bytes_of_longs (longs_of_file active.now)) result }
    ensures cause { NamedCause (K.faults keep.old) (K.faults keep.new) name.now (is_err result) }
{
    match active {
        Active::M68(file) => {
            let mut longs = [0; 18];
            file.put_longs(&mut longs);
            save_longs(&longs, keep, name)
        }
        Active::Ppc(file) => {
            let mut longs = [0; 37];
            file.put_longs(&mut longs);
            save_longs(&longs, keep, name)
        }
    }
}

/// Keeps longs as one piece.
fn save_longs<K: Keeper>(longs: &[u32], keep: &mut K, name: &str) -> Result<(), Failed>
    requires { length longs.now ≤ 64 }
    ensures bytes { Saves (K.kept keep.old) (K.kept keep.new) name.now (bytes_of_longs longs.now) result }
    ensures cause { NamedCause (K.faults keep.old) (K.faults keep.new) name.now (is_err result) }
{
    let mut piece = Piece::new();
    'each: for long in longs {
        put_long(&mut piece, *long);
    }
    keep.keep(name, &piece)
}

/// Appends a long to a piece.
fn put_long(piece: &mut Piece, long: u32)
    requires { length piece.old.items + 4 ≤ 256 }
    ensures is { piece.new.items ≡ piece.old.items ++ to_be_bytes w32 long }
    ensures longer { length piece.new.items ≡ length piece.old.items + 4 }
{
    append(piece, &long.to_be_bytes());
}

fn save_pages<K: Keeper>(bytes: &[u8], keep: &mut K, name: &str) -> Result<(), Failed>
    requires { length bytes.now % 1024 ≡ 0 }
    ensures bytes { Saves (K.kept keep.old) (K.kept keep.new) name.now (pages (length bytes.now / 1024) bytes.now) result }
    ensures cause { NamedCause (K.faults keep.old) (K.faults keep.new) name.now (is_err result) }
{
    'each: for k in 0..bytes.len() / PAGE {
        save_page(&bytes[PAGE * k..PAGE * k + PAGE], keep, name)?;
    }
    Ok(())
}

fn save_page<K: Keeper>(page: &[u8], keep: &mut K, name: &str) -> Result<(), Failed>
    ensures bytes { Saves (K.kept keep.old) (K.kept keep.new) name.now (page_of page.now) result }
    ensures cause { NamedCause (K.faults keep.old) (K.faults keep.new) name.now (is_err result) }
{
    if is_blank(page) {
        keep.keep(name, &[0])
    } else {
        keep.keep(name, &[1])?;
        keep.keep(name, page)
    }
}
