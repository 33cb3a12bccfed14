//! The imports of a container: transition vectors of the host's functions.
ghost use Rattle.std.specs.Prelude.{◌≡◌, ℕ, ◌^◌, ◌<◌, ◌≤◌, length, option_map, slice_index, IfOk};
ghost use Rattle.pef_head.specs.Parts.{import_count, import_of};
ghost use Rattle.pef_head.specs.PartsByNumber.{library_of};
ghost use Rattle.pef_head.specs.PartsClauses.{names};
ghost use Rattle.mix_bits.specs.Search.{least};
ghost use Rattle.mix_load.specs.inner.Container.{imports_refusal};
ghost use Rattle.mix_load.specs.inner.Outcome.{Finds};
ghost use Rattle.mix_load.specs.Sections.{import_address};
ghost use Rattle.mix_load.specs.inner.Sections.{is_missing};
ghost use Rattle.mix_load.specs.SectionsClauses.{import_addresses};

use crate::error::LoadError;
use big_memory::host_vector;
use pef_head::{Import, Pef};
use std::alloc::Global;
use toolbox::import_index;

/// How many bytes of a name are looked at. No name in the host table has as many.
const NAME_BYTES: usize = 64;

/// An import's address, 0 where it may be missing and is; None where it may not.
fn address_of(import: Import) -> Option<u32>
    ensures { result ≡ import_address (names import.entry) }
{
    match import_index(import.library, import.name) {
        Some(k) => Some(host_vector(k)),
        None if import.weak => Some(0),
        None => None,
    }
}

/// The address of the import with this number, by the number of its library.
fn import_at(pef: &Pef, i: u32, owner: u32) -> Option<u32>
    requires below { i < import_count pef.now }
    requires owner { owner ≡ library_of pef.now i }
    ensures { result ≡ import_address (import_of pef.now i) }
{
    address_of(pef.import_within(i, owner, NAME_BYTES))
}

/// The addresses of the first imports, by the numbers of their libraries.
#[tactic(auto, using(mix_bits::proofs::Searches::least_at))]
fn addresses_of(alloc: Global, pef: &Pef, owners: &[u32], count: u32) -> Result<Vec<u32>, LoadError>
    requires below { count ≤ import_count pef.now }
    requires owners { (i : ℕ) → i < import_count pef.now → slice_index owners.now i ≡ library_of pef.now i }
    requires len { length owners.now ≡ import_count pef.now }
    ensures refusal { Finds result (option_map (λ i. LoadError.Unresolved i) (least (is_missing pef.now) count)) }
    ensures is { IfOk result (λ addresses. addresses.items ≡ import_addresses pef.now count) }
    ensures len { IfOk result (λ addresses. length addresses.items ≡ count) }
{
    let mut addresses = Vec::new(alloc);
    for i in 0..count {
        match import_at(pef, i, owners[i as usize]) {
            Some(address) => addresses.push(address)?,
            None => return Err(LoadError::Unresolved(i)),
        }
    }
    Ok(addresses)
}

/// The addresses of all imports.
pub fn import_addresses(alloc: Global, pef: &Pef) -> Result<Vec<u32>, LoadError>
    ensures refusal { Finds result (imports_refusal pef.now) }
    ensures is { IfOk result (λ addresses. addresses.items ≡ import_addresses pef.now (import_count pef.now)) }
    ensures few { IfOk result (λ addresses. length addresses.items < 2 ^ 32) }
{
    let owners = pef.owners(alloc)?;
    addresses_of(alloc, pef, &owners, pef.imports())
}
