// The descriptors that the host makes.
ghost use Rattle.std.specs.Prelude.{◌≡◌, ◌≤◌, ◌<◌, ◌+◌, ◌++◌, ◌^◌, length, IfOk, IfSome};
ghost use Rattle.big_memory.specs.MemoryClauses.{IsDoneUnlessRefused};
ghost use Rattle.big_memory.specs.Memory.{with_bytes};
ghost use Rattle.routine_desc.specs.inner.Build.{IsPut};
ghost use Rattle.routine_desc.specs.BuildClauses.{ReadsBack};
ghost use Rattle.routine_desc.specs.Build.{header_bytes, image as image_lem, record_bytes};

use super::record::MIXED_MODE_MAGIC;
use arrayvec::ArrayVec;
use big_memory::{Access, Ram};
use mix_bits::append;

/// The bytes of a descriptor of one or two records.
type Image = ArrayVec<u8, 52>;

/// Writes a descriptor of one record with this procInfo, ISA code and procDescriptor at `a`, or, where
/// `m68k` is some, of that 68K code's record and then this one. All flags are 0. It is refused as a
/// store of its 32 or 52 bytes would be. Where procInfo has a signature and the ISA code is 0, 1 or
/// $10, `read_desc` gives these records back.
pub fn build(
    ram: &mut Ram,
    a: u32,
    info: u32,
    m68k: Option<u32>,
    isa: u8,
    proc: u32,
) -> Result<(), Access>
    ensures exact { let bytes = image_lem info m68k isa proc in
        IsDoneUnlessRefused ram.old a (length bytes) (with_bytes a bytes ram.old) ram.new result (record {}) }
    ensures reads_back { IfOk result (λ done. ReadsBack ram.new a info m68k isa proc) }
{
    let image = image(info, m68k, isa, proc);
    put(ram, a, &image)
}

/// Stores some bytes as a whole.
fn put(ram: &mut Ram, a: u32, bytes: &[u8]) -> Result<(), Access>
    requires some { 0 < length bytes.now }
    requires few { length bytes.now ≤ 52 }
    ensures exact { IsDoneUnlessRefused ram.old a (length bytes.now) (with_bytes a bytes.now ram.old) ram.new result (record {}) }
    ensures put { IfOk result (λ done. IsPut ram.old a bytes.now ram.new) }
{
    ram.probe(a, bytes.len() as u32)?;
    ram.fix(a, bytes);
    Ok(())
}

/// The bytes of the descriptor.
fn image(info: u32, m68k: Option<u32>, isa: u8, proc: u32) -> Image
    ensures bytes { result.items ≡ image_lem info m68k isa proc }
    ensures some { 0 < length result.items }
    ensures few { length result.items ≤ 52 }
    ensures fits { IfSome m68k (λ code. code < 2 ^ 32) }
{
    let mut image = ArrayVec::new();
    match m68k {
        None => {
            append_header(&mut image, 0);
            append_record(&mut image, info, isa, proc);
        }
        Some(code) => {
            append_header(&mut image, 1);
            append_record(&mut image, info, 0, code);
            append_record(&mut image, info, isa, proc);
        }
    }
    image
}

/// Appends a header, with the index of the last record.
fn append_header(image: &mut Image, last: u8)
    requires { length image.old.items ≤ 40 }
    ensures bytes { image.new.items ≡ image.old.items ++ header_bytes last }
    ensures longer { length image.new.items ≡ length image.old.items + 12 }
{
    append(image, &(MIXED_MODE_MAGIC as u16).to_be_bytes());
    append(image, &[7, 0, 0, 0, 0, 0, 0, 0, 0, last]);
}

/// Appends a record.
fn append_record(image: &mut Image, info: u32, isa: u8, proc: u32)
    requires { length image.old.items ≤ 32 }
    ensures bytes { image.new.items ≡ image.old.items ++ record_bytes info isa proc }
    ensures longer { length image.new.items ≡ length image.old.items + 20 }
{
    append(image, &info.to_be_bytes());
    append(image, &[0, isa, 0, 0]);
    append(image, &proc.to_be_bytes());
    append(image, &[0; 8]);
}
