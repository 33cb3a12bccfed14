use crate::container::instantiated_count;
use crate::error::PefError;
use crate::import::{Import, import_at, import_within};
use crate::loader::Loader;
use crate::read::{NO_SECTION, read_head};
use crate::relocations::{header_for, header_table, relocs_at};
use crate::section::{Section, section_at};
use crate::table::owner_table;
use mix_bits::long_at;
use std::alloc::{AllocError, Global};
use std::marker::Model;

/// A container that was read. Contracts see it as the bytes of its file.
#[derive(Drop)]
pub struct Pef<'a> {
    bytes: &'a [u8],
    loader: Loader,
}

impl<'a> Model for Pef<'a> {
    ghost use Rattle.std.specs.Prelude.{List, ℕ};
    ghost use Rattle.pef_head.specs.Read.{IsRead};

    ghost Value = { List ℕ };

    ghost view = { λ pef. pef.bytes.now };

    ghost invariant = { λ pef. IsRead pef.bytes.now pef.loader };
}

impl<'a> Pef<'a> {
    ghost use Rattle.std.specs.Prelude.{◌≡◌, ℕ, ◌≤◌, ◌<◌, ◌*◌, ◌%◌, length, slice_index, slice_index_or, None, IfOk, OnOk, OnErr};
    ghost use Rattle.std.specs.Result.{result_err};
    ghost use Rattle.mix_bits.specs.declared.file.TheConstants.{MOST_BYTES};
    ghost use Rattle.pef_head.specs.Container.{instantiated_count};
    ghost use Rattle.pef_head.specs.PartsClauses.{IsLoadable, names, parts};
    ghost use Rattle.pef_head.specs.PartsByNumber.{cut, library_of, reloc_header_of};
    ghost use Rattle.pef_head.specs.Parts.{import_count, import_of, main_of, relocs_of, section_at};
    ghost use Rattle.pef_head.specs.Refusals.{refusal_of};
    ghost use Rattle.pef_head.specs.Whole.{IsContainer};

    /// Reads the head of the container in a file's bytes. A refusal is that of the first rule that is
    /// broken: of the header, of the sections in turn, of the loader section and its tables, of their
    /// entries, of the names, and of the initialization routine. No bytes are copied.
    pub fn read(bytes: &'a [u8]) -> Result<Pef<'a>, PefError>
        requires { length bytes.now ≤ MOST_BYTES }
        ensures refusal { result_err result ≡ refusal_of bytes.now }
        ensures same { IfOk result (λ pef. pef ≡ bytes.now) }

        // The same by the rules without an order: a file that meets them all is read, and no other.
        ensures container { OnOk result (IsContainer bytes.now) }
        ensures refused { OnErr result (¬ IsContainer bytes.now) }
    {
        let loader = read_head(bytes)?;
        Ok(Pef { bytes, loader })
    }

    /// How many sections are instantiated. They are the first ones.
    pub fn sections(&self) -> u32
        ensures is { result ≡ instantiated_count self.now }
        ensures few { result ≤ 65535 }
    {
        instantiated_count(self.bytes) as u32
    }

    /// The instantiated section with this number.
    pub fn section(&self, k: u32) -> Section<'a>
        requires { k < instantiated_count self.now }
        ensures is { parts result ≡ section_at self.now k }
        ensures loadable { IsLoadable (parts result) }
    {
        section_at(self.bytes, k)
    }

    /// The section of the main symbol, and its offset there, unless the container has none. Neither was
    /// tested.
    pub fn main(&self) -> Option<(u32, u32)>
        ensures { result ≡ main_of self.now }
    {
        let start = self.loader.start;
        match long_at(self.bytes, start) {
            NO_SECTION => None,
            section => Some((section, long_at(self.bytes, start + 4))),
        }
    }

    /// How many symbols are imported.
    pub fn imports(&self) -> u32
        ensures is { result ≡ import_count self.now }
        ensures few { 4 * result ≤ MOST_BYTES }
    {
        self.loader.symbols
    }

    /// The imported symbol with this number. It looks for its library among all.
    pub fn import(&self, i: u32) -> Import<'a>
        requires { i < import_count self.now }
        ensures { names result ≡ import_of self.now i }
    {
        import_at(self.bytes, self.loader, i)
    }

    /// The library of each imported symbol, as its number among the libraries. It takes one walk over the
    /// libraries and symbols.
    pub fn owners(&self, alloc: Global) -> Result<Vec<u32>, AllocError>
        ensures is { IfOk result (λ owners. (i : ℕ) → i < import_count self.now → slice_index owners.items i ≡ library_of self.now i) }
        ensures len { IfOk result (λ owners. length owners.items ≡ import_count self.now) }
    {
        owner_table(alloc, self.bytes, self.loader)
    }

    /// The imported symbol with this number, by the number of its library, with the first bytes of the
    /// names, at most `most` of each. It looks at no other bytes of them.
    pub fn import_within(&self, i: u32, owner: u32, most: usize) -> Import<'a>
        requires below { i < import_count self.now }
        requires owner { owner ≡ library_of self.now i }
        ensures { names result ≡ cut most (import_of self.now i) }
    {
        import_within(self.bytes, self.loader, i, owner, most)
    }

    /// The relocation words of the instantiated section with this number, two bytes each, or none where it
    /// has no relocation header. It looks for that header among all.
    pub fn relocs(&self, k: u32) -> &'a [u8]
        requires { k < instantiated_count self.now }
        ensures is { result.now ≡ relocs_of self.now k }
        ensures even { length result.now % 2 ≡ 0 }
        ensures small { length result.now ≤ MOST_BYTES }
    {
        self.relocs_by(k, header_for(self.bytes, self.loader, k))
    }

    /// The relocation header of each instantiated section, as its number among the headers, if it has one.
    /// It takes one walk over the headers.
    pub fn reloc_headers(&self, alloc: Global) -> Result<Vec<Option<u32>>, AllocError>
        ensures is { IfOk result (λ headers. (k : ℕ) → k < instantiated_count self.now → slice_index_or headers.items k None ≡ reloc_header_of self.now k) }
        ensures len { IfOk result (λ headers. length headers.items ≡ instantiated_count self.now) }
    {
        let sections = instantiated_count(self.bytes);
        header_table(alloc, self.bytes, self.loader, sections)
    }

    /// The relocation words of the instantiated section with this number, as `relocs` gives them, by its
    /// relocation header.
    pub fn relocs_by(&self, k: u32, header: Option<u32>) -> &'a [u8]
        requires below { k < instantiated_count self.now }
        requires header { header ≡ reloc_header_of self.now k }
        ensures is { result.now ≡ relocs_of self.now k }
        ensures even { length result.now % 2 ≡ 0 }
        ensures small { length result.now ≤ MOST_BYTES }
    {
        relocs_at(self.bytes, self.loader, k, header)
    }
}
