//! The tables of libraries and symbols.
ghost use Rattle.std.specs.Prelude.{◌≡◌, ◌+◌, ◌*◌, ◌^◌, ◌<◌, IfSome};
ghost use Rattle.pef_head.specs.PlacesClauses.{HasTables};
ghost use Rattle.pef_head.specs.Places.{holds, library, library_name, relocation, symbol, symbol_name, symbols_end, symbols_start};
ghost use Rattle.pef_head.specs.inner.Refusals.{leaves_symbols};
ghost use Rattle.mix_bits.specs.Search.{least};

use crate::loader::Loader;
use mix_bits::{long_at, three_at};

/// The place of a library.
pub fn library(l: Loader, j: u32) -> u32
    requires { library l j < 2 ^ 32 }
    ensures { result ≡ library l j }
{
    l.start + 56 + 24 * j
}

/// The place of a symbol.
pub fn symbol(l: Loader, i: u32) -> u32
    requires { symbol l i < 2 ^ 32 }
    ensures { result ≡ symbol l i }
{
    l.start + 56 + 24 * l.libraries + 4 * i
}

/// The place of a relocation header.
pub fn relocation(l: Loader, h: u32) -> u32
    requires { relocation l h < 2 ^ 32 }
    ensures { result ≡ relocation l h }
{
    l.start + 56 + 24 * l.libraries + 4 * l.symbols + 12 * h
}

/// The first symbol of a library.
pub fn symbols_start(bytes: &[u8], l: Loader, j: u32) -> u32
    requires tables { HasTables bytes.now l }
    requires below { j < l.libraries }
    ensures { result ≡ symbols_start bytes.now l j }
{
    long_at(bytes, library(l, j) + 16)
}

/// The symbol behind the last of a library.
pub fn symbols_end(bytes: &[u8], l: Loader, j: u32) -> u64
    requires tables { HasTables bytes.now l }
    requires below { j < l.libraries }
    ensures { result ≡ symbols_end bytes.now l j }
{
    symbols_start(bytes, l, j) as u64 + long_at(bytes, library(l, j) + 12) as u64
}

/// The library has the symbol.
pub fn holds(bytes: &[u8], l: Loader, i: u32, j: u32) -> bool
    requires tables { HasTables bytes.now l }
    requires below { j < l.libraries }
    ensures { result ≡ holds bytes.now l i j }
{
    symbols_start(bytes, l, j) <= i && (i as u64) < symbols_end(bytes, l, j)
}

/// The place of a library's name.
pub fn library_name(bytes: &[u8], l: Loader, j: u32) -> u64
    requires tables { HasTables bytes.now l }
    requires below { j < l.libraries }
    ensures { result ≡ library_name bytes.now l j }
{
    l.start as u64 + l.strings as u64 + long_at(bytes, library(l, j)) as u64
}

/// The place of a symbol's name.
pub fn symbol_name(bytes: &[u8], l: Loader, i: u32) -> u64
    requires tables { HasTables bytes.now l }
    requires below { i < l.symbols }
    ensures { result ≡ symbol_name bytes.now l i }
{
    l.start as u64 + l.strings as u64 + three_at(bytes, symbol(l, i) + 1) as u64
}

/// The first library whose symbols leave the symbol table.
#[tactic(auto, using(mix_bits::proofs::Searches::least_at))]
pub fn bad_library(bytes: &[u8], l: Loader) -> Option<u32>
    requires { HasTables bytes.now l }
    ensures is { result ≡ least (leaves_symbols bytes.now l) l.libraries }
    ensures below { IfSome result (λ j. j < l.libraries) }
{
    for j in 0..l.libraries {
        if (l.symbols as u64) < symbols_end(bytes, l, j) {
            return Some(j);
        }
    }
    None
}
