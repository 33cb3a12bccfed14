// The bytes of RAM in an image.
ghost use Rattle.std.specs.Prelude.{◌≡◌, ◌+◌, ◌*◌, ◌<◌, ◌≤◌, ℕ, length, nat_le, slice_index, IfOk, Ok, option_copied};
ghost use Rattle.mix_bits.specs.declared.file.TheConstants.{IMAGE_BYTES};
ghost use Rattle.big_memory.specs.Memory.{with_bytes};
ghost use Rattle.mix_image.specs.Fields.{full_page, memory_from, only_if, page_bytes, page_from, page_size};
ghost use Rattle.mix_image.specs.inner.Restoring.{Gives, Reads};
ghost use Rattle.mix_image.specs.Spelling.{is_blank};
ghost use Rattle.mix_image.specs.inner.Testing.{outcome};

use crate::ImageError;
use crate::longs::short;
use big_memory::Ram;
use std::alloc::Global;

/// How many bytes a page has.
pub const PAGE: usize = 1024;

/// Tests the pages of so many KiB, with which the image ends. It takes no memory.
pub fn test_memory(bytes: &[u8], at: usize, kib: u32) -> Result<(), ImageError>
    requires place { at ≤ length bytes.now }
    requires near { at ≤ 40000 }
    requires most { kib ≤ 16384 }
    ensures { result ≡ outcome (memory_from bytes.now at kib) }
{
    let mut end = at;
    'tested: for k in 0..kib {
        end += page_size(read_page(bytes, end, k)?);
    }
    test_end(bytes, end)
}

/// Tests that no byte stands behind the last field.
fn test_end(bytes: &[u8], end: usize) -> Result<(), ImageError>
    requires near { end ≤ IMAGE_BYTES }
    ensures { result ≡ only_if (nat_le (length bytes.now) end) (ImageError.Extra end) (record {}) }
{
    if bytes.len() <= end {
        Ok(())
    } else {
        Err(ImageError::Extra(end as u32))
    }
}

/// Memory of so many KiB with the bytes that the image holds, which end there.
pub fn read_memory(alloc: Global, bytes: &[u8], at: usize, kib: u32) -> Result<Ram, ImageError>
    requires place { at ≤ length bytes.now }
    requires near { at ≤ 40000 }
    requires least { 128 ≤ kib }
    requires most { kib ≤ 16384 }
    ensures { Gives result (memory_from bytes.now at kib) }
{
    let mut ram = Ram::new(alloc, 1024 * kib)?;
    let mut end = at;
    'pages: for k in 0..kib {
        let page = read_page(bytes, end, k)?;
        put_page(&mut ram, k, page);
        end += page_size(page);
    }
    test_end(bytes, end)?;
    Ok(ram)
}

/// The page with this number, none where all its bytes are 0.
fn read_page(bytes: &[u8], at: usize, k: u32) -> Result<Option<&[u8]>, ImageError>
    requires near { at ≤ IMAGE_BYTES }
    ensures exact { Reads option_copied result (page_from bytes.now at k) }
    ensures len { IfOk result (λ page. length (page_bytes (option_copied page)) ≡ 1024) }
    ensures within { IfOk result (λ page. at + page_size (option_copied page) ≤ length bytes.now) }
{
    match bytes.get(at) {
        None => Err(short(bytes)),
        Some(0) => Ok(None),
        Some(1) => read_full_page(bytes, at, k),
        Some(_) => Err(ImageError::Page(k)),
    }
}

/// The page behind a byte 1.
fn read_full_page(bytes: &[u8], at: usize, k: u32) -> Result<Option<&[u8]>, ImageError>
    requires near { at ≤ IMAGE_BYTES }
    ensures exact { Reads option_copied result (full_page bytes.now at k) }
    ensures len { IfOk result (λ page. length (page_bytes (option_copied page)) ≡ 1024) }
    ensures within { IfOk result (λ page. at + page_size (option_copied page) ≤ length bytes.now) }
{
    if bytes.len() < at + 1 + PAGE {
        return Err(short(bytes));
    }
    let page = &bytes[at + 1..at + 1 + PAGE];
    if is_blank(page) {
        Err(ImageError::Page(k))
    } else {
        Ok(Some(page))
    }
}

/// Whether all bytes are 0.
pub fn is_blank(bytes: &[u8]) -> bool
    ensures { result ≡ is_blank bytes.now }
{
    bytes.iter().all(|byte| *byte == 0)
}

/// How many bytes spell a page.
fn page_size(page: Option<&[u8]>) -> usize
    ensures { result ≡ page_size (option_copied page.entry) }
{
    match page {
        None => 1,
        Some(_) => 1 + PAGE,
    }
}

/// Puts a page where all bytes are 0.
fn put_page(ram: &mut Ram, k: u32, page: Option<&[u8]>)
    requires within { 1024 * k + 1024 ≤ length ram.old.bytes }
    requires blank { (i : ℕ) → 1024 * k ≤ i → slice_index ram.old.bytes i ≡ 0 }
    requires len { length (page_bytes (option_copied page)) ≡ 1024 }
    ensures { ram.new ≡ with_bytes (1024 * k) (page_bytes (option_copied page.entry)) ram.old }
{
    ram.meets_invariant();
    match page {
        None => {}
        Some(page) => ram.fix(1024 * k, page),
    }
}
