// The files of a caller.
ghost use Rattle.std.specs.Prelude.{◌≡◌, ℕ, List, [], Some, IfOk};
ghost use Rattle.slice_parts.specs.Words.{files_of};

use mix_io::{MemShelf, NoMemory, Shelf};
use std::alloc::Global;

/// A shelf with the files of a call, which fails at a name that it lacks alone.
pub fn shelf_of(alloc: Global, first: &[u8], second: &[u8]) -> Result<MemShelf, NoMemory>
    ensures files { IfOk result (λ shelf. ⟦<MemShelf as Shelf>⟧.contents shelf ≡ Some (files_of first.now second.now)) }
    ensures faults { IfOk result (λ shelf. (name : List ℕ) → ⟦<MemShelf as Shelf>⟧.faults shelf name ≡ 0) }
    ensures excesses { IfOk result (λ shelf. (name : List ℕ) → ⟦<MemShelf as Shelf>⟧.excesses shelf name ≡ 0) }
    ensures never { IfOk result (λ shelf. shelf.calls.fails ≡ []) }
{
    let first_name = String::from_str(alloc, "first")?;
    let second_name = String::from_str(alloc, "second")?;
    let names = vec![in alloc; first_name, second_name]?;
    let first_bytes = Vec::from_slice(alloc, first)?;
    let second_bytes = Vec::from_slice(alloc, second)?;
    let contents = vec![in alloc; first_bytes, second_bytes]?;
    Ok(MemShelf::new(names, contents, Vec::new(alloc)))
}
