// The fields of an image up to the number of its heap's blocks.
ghost use Rattle.std.specs.Prelude.{◌≡◌, ◌*◌, ◌%◌, ◌≤◌, ℕ, length, IfOk};
ghost use Rattle.switch_frame.specs.Program.{start_sp_of};
ghost use Rattle.mix_image.specs.declared.error.ImageError.{ImageError};
ghost use Rattle.mix_image.specs.Fields.{are_bounds, bounds_of, count_of, head_of, kib_of, magic_of, main_of, set_of, start_of};
ghost use Rattle.host_heap.specs.Space.{block_limit};
ghost use Rattle.mix_image.specs.inner.Heads.{IsHead};

use crate::ImageError;
use crate::longs::{MARK_FIRST, MARK_SECOND, long, short};
use host_heap::BLOCK_LIMIT;
use mix_bits::Isa;
use switch_frame::{PROGRAM_START, start_sp_of};

/// The fields before the heap's blocks.
#[derive(Clone, Copy)]
pub struct Head {
    pub kib: u32,
    pub a5: u32,
    pub main: Isa,
    pub start_sp: u32,
    pub low: u32,
    pub high: u32,
    pub count: u32,
}

/// Reads them in order.
#[tactic(auto, unfolding(crate::specs::Fields::head_of))]
pub fn read_head(bytes: &[u8]) -> Result<Head, ImageError>
    ensures exact { result ≡ head_of bytes.now }
    ensures fits { IfOk result IsHead }
{
    test_magic(bytes)?;
    let kib = read_kib(bytes)?;
    let a5 = long(bytes, 12)?;
    let main = read_main(bytes)?;
    let start_sp = read_start(bytes, main, kib)?;
    let (low, high) = read_bounds(bytes, kib)?;
    let count = read_count(bytes)?;
    Ok(Head {
        kib,
        a5,
        main,
        start_sp,
        low,
        high,
        count,
    })
}

fn test_magic(bytes: &[u8]) -> Result<(), ImageError>
    ensures { result ≡ magic_of bytes.now }
{
    if bytes.len() < 8 {
        Err(short(bytes))
    } else if long(bytes, 0) == Ok(MARK_FIRST) && long(bytes, 4) == Ok(MARK_SECOND) {
        Ok(())
    } else {
        Err(ImageError::Magic)
    }
}

fn read_kib(bytes: &[u8]) -> Result<u32, ImageError>
    ensures exact { result ≡ kib_of bytes.now }
    ensures fits { IfOk result (λ kib. (128 ≤ kib) × (kib ≤ 16384)) }
{
    let kib = long(bytes, 8)?;
    if 128 <= kib && kib <= 16384 {
        Ok(kib)
    } else {
        Err(ImageError::Ram(kib))
    }
}

/// The instruction set that a number stands for.
pub fn set_of(value: u32, refusal: ImageError) -> Result<Isa, ImageError>
    ensures { result ≡ set_of value refusal }
{
    match value {
        0 => Ok(Isa::M68),
        1 => Ok(Isa::Ppc),
        _ => Err(refusal),
    }
}

fn read_main(bytes: &[u8]) -> Result<Isa, ImageError>
    ensures { result ≡ main_of bytes.now }
{
    let value = long(bytes, 16)?;
    set_of(value, ImageError::Main(value))
}

fn read_start(bytes: &[u8], main: Isa, kib: u32) -> Result<u32, ImageError>
    requires least { 128 ≤ kib }
    requires most { kib ≤ 16384 }
    ensures exact { result ≡ start_of bytes.now main kib }
    ensures fits { IfOk result (λ sp. sp ≡ start_sp_of main (1024 * kib)) }
{
    let sp = long(bytes, 20)?;
    if sp == start_sp_of(main, 1024 * kib) {
        Ok(sp)
    } else {
        Err(ImageError::StartSp(sp))
    }
}

fn read_bounds(bytes: &[u8], kib: u32) -> Result<(u32, u32), ImageError>
    requires most { kib ≤ 16384 }
    ensures exact { result ≡ bounds_of bytes.now kib }
    ensures fits { IfOk result (λ bounds. (bounds.0 % 16 ≡ 0) × (65536 ≤ bounds.0) × (bounds.0 ≤ bounds.1) × (bounds.1 ≡ 768 * kib)) }
{
    let low = long(bytes, 24)?;
    let high = long(bytes, 28)?;
    if are_bounds(low, high, kib) {
        Ok((low, high))
    } else {
        Err(ImageError::Heap)
    }
}

fn are_bounds(low: u32, high: u32, kib: u32) -> bool
    requires { kib ≤ 16384 }
    ensures { result ≡ are_bounds low high kib }
{
    low % 16 == 0 && PROGRAM_START <= low && low <= high && high == 768 * kib
}

fn read_count(bytes: &[u8]) -> Result<u32, ImageError>
    ensures exact { result ≡ count_of bytes.now }
    ensures fits { IfOk result (λ count. count ≤ block_limit) }
{
    let count = long(bytes, 32)?;
    if count as usize <= BLOCK_LIMIT {
        Ok(count)
    } else {
        Err(ImageError::Block(count))
    }
}
