//! The library of each symbol, found in one walk over the libraries.
ghost use Rattle.std.specs.Prelude.{◌≡◌, ◌+◌, ◌<◌, length, IfOk};
ghost use Rattle.pef_head.specs.inner.Owners.{AreOwned, HasOwners};
ghost use Rattle.pef_head.specs.PlacesClauses.{HasTables};

use crate::loader::Loader;
use crate::places::{symbols_end, symbols_start};
use std::alloc::{AllocError, Global};

/// Writes the number of a library at each of its symbols.
#[tactic(auto, using(crate::proofs::Tables::owned_alone))]
fn fill(table: &mut [u32], bytes: &[u8], l: Loader, j: u32)
    requires tables { HasTables bytes.now l }
    requires below { j < l.libraries }
    requires owned { AreOwned bytes.now l }
    requires room { length table.old ≡ l.symbols }
    requires filled { HasOwners bytes.now l j table.old }
    ensures filled { HasOwners bytes.now l (j + 1) table.new }
    ensures room { length table.new ≡ l.symbols }
{
    let start = symbols_start(bytes, l, j);
    let end = symbols_end(bytes, l, j).min(l.symbols as u64) as u32;
    for i in start..end {
        table[i as usize] = j;
    }
}

/// The library of each symbol.
pub fn owner_table(alloc: Global, bytes: &[u8], l: Loader) -> Result<Vec<u32>, AllocError>
    requires tables { HasTables bytes.now l }
    requires owned { AreOwned bytes.now l }
    ensures filled { IfOk result (λ table. HasOwners bytes.now l l.libraries table.items) }
    ensures room { IfOk result (λ table. length table.items ≡ l.symbols) }
{
    let mut table = vec![in alloc; 0; l.symbols as usize]?;
    for j in 0..l.libraries {
        fill(&mut table, bytes, l, j);
    }
    Ok(table)
}
