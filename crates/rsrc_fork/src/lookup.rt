ghost use Rattle.std.specs.Prelude.{◌≡◌, fold, option_map};
ghost use Rattle.std.specs.Map.{keys_of};
ghost use Rattle.rsrc_fork.specs.ResourcesClauses.{AreSmall, IsIdsEnd, IsNextId, seen};
ghost use Rattle.rsrc_fork.specs.inner.Ids.{behind, end_with};
ghost use Rattle.rsrc_fork.specs.Resources.{bytes_of};

use crate::name::Name;
use crate::references::Resources;

/// The bytes of the resource of this name.
#[tactic(auto, using(crate::proofs::Lookups::lookup_seen))]
pub fn find<'a>(resources: &Resources<'a>, name: Name) -> Option<&'a [u8]>
    ensures { option_map (λ piece. piece.now) result ≡ bytes_of (seen resources.now.entries) name }
{
    resources.get(&name).copied()
}

/// The least id of a type above `after`. It looks up one id after the other.
pub fn next_id(resources: &Resources, kind: u32, after: i16) -> Option<i16>
    requires { AreSmall (seen resources.now.entries) }
    ensures { IsNextId (seen resources.now.entries) kind after result }
{
    for before in after..i16::MAX {
        let id = before + 1;
        if find(resources, Name { kind, id }).is_some() {
            return Some(id);
        }
    }
    None
}

/// Behind the greatest id of a type, if that is not negative, else 0. It goes over the names once.
pub fn ids_end(resources: &Resources, kind: u32) -> u16
    requires { AreSmall (seen resources.now.entries) }
    ensures { IsIdsEnd (seen resources.now.entries) kind result }
{
    end_of(resources, kind)
}

/// The same as a fold.
fn end_of(resources: &Resources, kind: u32) -> u16
    ensures { result ≡ fold (end_with kind) 0 (keys_of resources.now.entries) }
{
    resources
        .keys()
        .fold(0, |end, name| end_with(end, *name, kind))
}

/// Where the ids of a type end so far, once a name is looked at.
fn end_with(end: u16, name: Name, kind: u32) -> u16
    ensures { result ≡ end_with kind end name }
{
    if name.kind == kind {
        end.max(behind(name.id))
    } else {
        end
    }
}

/// The number behind an id, or 0 where it is negative.
fn behind(id: i16) -> u16
    ensures { result ≡ behind id }
{
    if id < 0 { 0 } else { id as u16 + 1 }
}
