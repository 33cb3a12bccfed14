use crate::error::RsrcError;
use crate::lookup::{find, ids_end, next_id};
use crate::name::Name;
use crate::references::{Resources, resources_of};
use std::alloc::Global;
use std::marker::Model;

/// A resource fork that was read. Contracts see it as its resources in the order of the type list: the
/// name and the bytes of each.
#[derive(Drop)]
pub struct Fork<'a> {
    resources: Resources<'a>,
}

impl<'a> Model for Fork<'a> {
    ghost use Rattle.std.specs.Prelude.{List};
    ghost use Rattle.rsrc_fork.specs.ResourcesClauses.{AreSmall, seen};
    ghost use Rattle.rsrc_fork.specs.Resources.{Resource};

    ghost Value = { List Resource };

    ghost view = { λ fork. seen fork.resources.entries };

    ghost invariant = { λ fork. AreSmall (seen fork.resources.entries) };
}

impl<'a> Fork<'a> {
    ghost use Rattle.std.specs.Prelude.{◌≡◌, ◌≢◌, ◌≤◌, ◌<◌, List, length, option_map, IfOk, IfErr, IfSome};
    ghost use Rattle.mix_bits.specs.declared.file.TheConstants.{MOST_BYTES};
    ghost use Rattle.rsrc_fork.specs.OutcomeClauses.{Gives};
    ghost use Rattle.rsrc_fork.specs.Listing.{IsFork};
    ghost use Rattle.rsrc_fork.specs.ReferencesClauses.{reference_count, reference_limit};
    ghost use Rattle.rsrc_fork.specs.References.{resources_of};
    ghost use Rattle.rsrc_fork.specs.Resources.{Resource, bytes_of, named};
    ghost use Rattle.rsrc_fork.specs.ResourcesClauses.{next_id, IsIdsEnd, IsNextId};
    ghost use Rattle.rsrc_fork.specs.laws.Walk.{ComesToEnd, FindsAll};

    /// Reads the fork in a file's bytes. A refusal is the first in this order: the header, the place
    /// of the type list, and then each type and its references in turn, as they are listed. It keeps an entry for
    /// each resource, and copies no bytes. Where the type list says that there are more than 1398101 references, it
    /// is out of memory before it keeps any.
    pub fn read(alloc: Global, bytes: &'a [u8]) -> Result<Fork<'a>, RsrcError>
        requires { length bytes.now ≤ MOST_BYTES }
        ensures is { Gives (λ fork. fork) result (resources_of bytes.now) }

        // The same by the list of the references: a file that is a fork is read, and no other.
        ensures fork { IfOk result (IsFork bytes.now) }
        ensures refused { IfErr result (λ e. e ≢ RsrcError.NoMemory →
            (resources : List Resource) → ¬ IsFork bytes.now resources) }

        ensures few { IfOk result (λ fork. length fork ≤ reference_limit) }
        ensures many { IfOk (reference_count bytes.now) (λ count. reference_limit < count → result ≡ Err RsrcError.NoMemory) }
    {
        let resources = resources_of(alloc, bytes)?;
        Ok(Fork { resources })
    }

    /// The bytes of a resource. They stand in the file that was read.
    pub fn get(&self, kind: u32, id: i16) -> Option<&'a [u8]>
        ensures is { option_map (λ piece. piece.now) result ≡ bytes_of self.now (named kind id) }
        ensures small { IfSome result (λ piece. length piece.now ≤ MOST_BYTES) }
    {
        find(&self.resources, Name { kind, id })
    }

    /// The least id above `after` among the resources of a type. It looks up one id after the other.
    #[tactic(auto, using(crate::proofs::NextId::next_is))]
    pub fn ids(&self, kind: u32, after: i16) -> Option<i16>
        ensures is { result ≡ next_id self.now kind after }
        ensures next { IsNextId self.now kind after result }
    {
        next_id(&self.resources, kind, after)
    }

    /// Behind the greatest id of a type, if that is not negative, else 0. It goes over the resources once.
    pub fn ids_end(&self, kind: u32) -> u16
        ensures { IsIdsEnd self.now kind result }
    {
        ids_end(&self.resources, kind)
    }

    /// What holds of a walk by `ids`, each time from the id that it gave. It does nothing: the clauses are
    /// its point.
    pub fn id_laws(&self)
        ensures all { FindsAll self.now }
        ensures end { ComesToEnd self.now }
    {
        let _resources = &self.resources;
    }
}
