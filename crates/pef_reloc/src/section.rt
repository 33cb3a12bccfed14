// The section that is relocated, in memory.
ghost use Rattle.std.specs.Prelude.{◌≡◌, ◌+◌, ◌^◌, ◌<◌, ◌≤◌, length, IfOk};
ghost use Rattle.pef_reloc.specs.Additions.{value_of};
ghost use Rattle.pef_reloc.specs.AdditionsClauses.{with_long};
ghost use Rattle.pef_reloc.specs.inner.Additions.{base_of, import_at};
ghost use Rattle.pef_reloc.specs.inner.Held.{Fits, HasNext, outside_of, section_of, sources_of};

use crate::cursor::Cursor;
use crate::error::RelocError;
use big_memory::Ram;

/// What is added to a long.
#[derive(Clone, Copy)]
pub enum Source {
    FromC,
    FromD,
    /// The import at the index, which moves on.
    FromImport,
    /// The base of the section with this number.
    FromSection(u32),
}

/// A section: where it stands in memory, and what is added to its longs.
#[derive(Clone, Copy)]
pub struct Target<'a> {
    pub base: u32,
    pub total: u32,
    /// Where each section stands.
    pub bases: &'a [u32],
    /// The address of each import.
    pub imports: &'a [u32],
}

/// Where the section with a number stands.
pub fn base_of(target: Target, n: u32) -> Result<u32, RelocError>
    ensures { result ≡ base_of (sources_of target.entry) n }
{
    if (n as usize) < target.bases.len() {
        Ok(target.bases[n as usize])
    } else {
        Err(RelocError::SectionIndex(n))
    }
}

/// What a source gives at this point.
pub fn value_of(target: Target, cursor: &Cursor, source: Source) -> Result<u32, RelocError>
    requires { length target.imports.now < 2 ^ 32 }
    ensures is { result ≡ value_of (sources_of target.entry) source cursor.now }
    ensures next { IfOk result (λ _. HasNext source cursor.now) }
{
    match source {
        Source::FromC => Ok(cursor.c),
        Source::FromD => Ok(cursor.d),
        Source::FromImport => import_at(target, cursor.index),
        Source::FromSection(n) => base_of(target, n),
    }
}

fn import_at(target: Target, index: u32) -> Result<u32, RelocError>
    requires { length target.imports.now < 2 ^ 32 }
    ensures is { result ≡ import_at (sources_of target.entry) index }
    ensures next { IfOk result (λ _. index + 1 < 2 ^ 32) }
{
    if (index as usize) < target.imports.len() {
        Ok(target.imports[index as usize])
    } else {
        Err(RelocError::ImportIndex(index))
    }
}

/// Adds to a long of the section.
pub fn add_long(ram: &mut Ram, target: Target, position: u32, value: u32)
    requires fits { Fits target ram.old }
    requires within { position + 4 ≤ target.total }
    ensures section { section_of target.entry ram.new ≡ with_long position value (section_of target.entry ram.old) }
    ensures outside { outside_of target.entry ram.new ≡ outside_of target.entry ram.old }
    ensures len { length ram.new.bytes ≡ length ram.old.bytes }
{
    ram.meets_invariant();
    let at = target.base + position;
    let long = ram.read_long(at);
    ram.fix_long(at, long.wrapping_add(value));
}
