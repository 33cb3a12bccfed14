// The choice among records.
ghost use Rattle.std.specs.Prelude.{◌≡◌, ◌≤◌};
ghost use Rattle.routine_desc.specs.ReadClauses.{records_of};
ghost use Rattle.routine_desc.specs.inner.Scans.{found as found_kept, scan as scan_kept};
ghost use Rattle.routine_desc.specs.RecordViews.{picked};
ghost use Rattle.routine_desc.specs.Choice.{choice};
ghost use Rattle.routine_desc.specs.inner.Choice.{is_default as is_default_lem, choice_of_one, chosen_of, found_before, matches_selector, scan_of};

use super::flags::RoutineFlags;
use super::record::{Desc, Rec};
use mix_bits::{Isa, is_isa};

/// The first of some records, the first one of PowerPC code, and the first one of the caller's set.
#[derive(Clone, Copy)]
pub struct Found<'a> {
    pub first: Option<&'a Rec>,
    pub native: Option<&'a Rec>,
    pub own: Option<&'a Rec>,
}

/// What is found among the records with an equal selector, or all where none is given, and among the
/// defaults.
#[derive(Clone, Copy)]
pub struct Scan<'a> {
    pub equal: Found<'a>,
    pub fallback: Found<'a>,
}

impl Found<'_> {
    /// Nothing found.
    const NOTHING: Found<'static> = Found {
        first: None,
        native: None,
        own: None,
    };
}

/// The record that a caller of a set takes. A dispatched descriptor has a selector: the records that
/// have it are asked first, and the defaults where there is none. Of those asked, the first of PowerPC
/// code is taken where the first one says so, else the first of the caller's set, else the first.
pub fn choose(desc: &Desc, caller: Isa, selector: Option<u32>) -> Option<Rec>
    requires { desc.now.count ≤ 64 }
    ensures { result ≡ choice (records_of desc.now) caller selector }
{
    match choose_among(&desc.recs[..desc.count as usize], caller, selector) {
        Some(rec) => Some(*rec),
        None => None,
    }
}

/// The same among the records of a descriptor.
#[inline(always)]
pub fn choose_among(records: &[Rec], caller: Isa, selector: Option<u32>) -> Option<&Rec>
    ensures { picked result ≡ choice records.now caller selector }
{
    match records {
        [only] => choose_only(only, selector),
        _ => choose_by_scan(records, caller, selector),
    }
}

/// The choice where there is one record.
#[inline(always)]
fn choose_only(only: &Rec, selector: Option<u32>) -> Option<&Rec>
    ensures { picked result ≡ choice_of_one only.now selector }
{
    if matches(only, selector) || is_default(only) {
        Some(only)
    } else {
        None
    }
}

/// The choice by one scan of the records.
#[inline(never)]
fn choose_by_scan(records: &[Rec], caller: Isa, selector: Option<u32>) -> Option<&Rec>
    ensures { picked result ≡ choice records.now caller selector }
{
    let scan = look(records, caller, selector);
    match selector {
        None => chosen(scan.equal),
        Some(_) if scan.equal.first.is_some() => chosen(scan.equal),
        Some(_) => chosen(scan.fallback),
    }
}

/// Scans the records once.
fn look(recs: &[Rec], caller: Isa, selector: Option<u32>) -> Scan
    ensures { scan_kept result ≡ scan_of caller selector recs.now }
{
    match recs {
        [] => Scan {
            equal: Found::NOTHING,
            fallback: Found::NOTHING,
        },
        [first, others @ ..] => {
            let rest = look(others, caller, selector);
            Scan {
                equal: found_with(first, caller, matches(first, selector), rest.equal),
                fallback: found_with(first, caller, is_default(first), rest.fallback),
            }
        }
    }
}

/// What is found when a record stands before the others, if it is one of those asked.
fn found_with<'a>(rec: &'a Rec, caller: Isa, asked: bool, others: Found<'a>) -> Found<'a>
    ensures { found_kept result ≡ found_before rec.now caller asked (found_kept others.entry) }
{
    if asked {
        Found {
            first: Some(rec),
            native: if is_isa(rec.isa, Isa::Ppc) {
                Some(rec)
            } else {
                others.native
            },
            own: if is_isa(rec.isa, caller) {
                Some(rec)
            } else {
                others.own
            },
        }
    } else {
        others
    }
}

/// The record that is taken of those found.
fn chosen<'a>(found: Found<'a>) -> Option<&'a Rec>
    ensures { picked result ≡ chosen_of (found_kept found.entry) }
{
    match found.first {
        None => None,
        Some(first) => {
            if RoutineFlags::USE_NATIVE.is_in(first.flags) && found.native.is_some() {
                found.native
            } else if found.own.is_some() {
                found.own
            } else {
                Some(first)
            }
        }
    }
}

/// Whether a record has the selector, if one is asked for.
fn matches(rec: &Rec, selector: Option<u32>) -> bool
    ensures { result ≡ matches_selector selector rec.now }
{
    match selector {
        None => true,
        Some(selector) => rec.selector == selector,
    }
}

/// Whether a record is a default.
fn is_default(rec: &Rec) -> bool
    ensures { result ≡ is_default_lem rec.now }
{
    RoutineFlags::DEFAULT.is_in(rec.flags)
}
