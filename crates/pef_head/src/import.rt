ghost use Rattle.std.specs.Prelude.{◌≡◌, ℕ, ◌<◌, true};
ghost use Rattle.pef_head.specs.Owners.{owners};
ghost use Rattle.pef_head.specs.PartsByNumber.{cut, owner_of};
ghost use Rattle.pef_head.specs.inner.Parts.{import_at, is_weak};
ghost use Rattle.pef_head.specs.PartsClauses.{names};
ghost use Rattle.pef_head.specs.PlacesClauses.{HasTables};
ghost use Rattle.pef_head.specs.Places.{has_end, holds, library_name, symbol_name};

use crate::loader::Loader;
use crate::names::{name_at, name_within};
use crate::places::{holds, library_name, symbol, symbol_name};

/// A symbol that the container takes from a library.
#[derive(Clone, Copy, Debug, PartialEq, Eq)]
pub struct Import<'a> {
    /// The library's name, without the zero byte behind it.
    pub library: &'a [u8],
    /// The symbol's name, likewise.
    pub name: &'a [u8],
    /// It may be missing.
    pub weak: bool,
}

/// The library that has a symbol. It looks at the libraries in turn.
fn owner_of(bytes: &[u8], l: Loader, i: u32) -> u32
    requires tables { HasTables bytes.now l }
    requires owned { owners bytes.now l l.libraries i ≡ 1 }
    ensures is { result ≡ owner_of bytes.now l i }
    ensures below { result < l.libraries }
{
    for j in 0..l.libraries {
        if holds(bytes, l, i, j) {
            return j;
        }
    }
    unreachable!()
}

/// Whether a symbol may be missing.
fn is_weak(bytes: &[u8], l: Loader, i: u32) -> bool
    requires tables { HasTables bytes.now l }
    requires below { i < l.symbols }
    ensures { result ≡ is_weak bytes.now l i }
{
    bytes[symbol(l, i) as usize] & 0x80 != 0
}

/// The symbol with this number, which this library has, with the first bytes of the names, at most so many
/// of each.
#[tactic(auto, using(crate::proofs::Tables::owner_below))]
pub fn import_within<'a>(bytes: &'a [u8], l: Loader, i: u32, owner: u32, most: usize) -> Import<'a>
    requires tables { HasTables bytes.now l }
    requires below { i < l.symbols }
    requires owned { owners bytes.now l l.libraries i ≡ 1 }
    requires owner { owner ≡ owner_of bytes.now l i }
    requires libraries { (j : ℕ) → j < l.libraries → has_end bytes.now l (library_name bytes.now l j) ≡ true }
    requires ends { has_end bytes.now l (symbol_name bytes.now l i) ≡ true }
    ensures { names result ≡ cut most (import_at bytes.now l i) }
{
    let library = library_name(bytes, l, owner);
    Import {
        library: name_within(bytes, l, library, most),
        name: name_within(bytes, l, symbol_name(bytes, l, i), most),
        weak: is_weak(bytes, l, i),
    }
}

/// The symbol with this number.
pub fn import_at<'a>(bytes: &'a [u8], l: Loader, i: u32) -> Import<'a>
    requires tables { HasTables bytes.now l }
    requires below { i < l.symbols }
    requires owned { owners bytes.now l l.libraries i ≡ 1 }
    requires libraries { (j : ℕ) → j < l.libraries → has_end bytes.now l (library_name bytes.now l j) ≡ true }
    requires ends { has_end bytes.now l (symbol_name bytes.now l i) ≡ true }
    ensures { names result ≡ import_at bytes.now l i }
{
    let library = library_name(bytes, l, owner_of(bytes, l, i));
    Import {
        library: name_at(bytes, l, library),
        name: name_at(bytes, l, symbol_name(bytes, l, i)),
        weak: is_weak(bytes, l, i),
    }
}
