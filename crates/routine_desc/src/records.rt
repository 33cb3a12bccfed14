// Reading a descriptor.
ghost use Rattle.std.specs.Prelude.{◌≡◌, ◌≤◌, ◌+◌, ◌-◌, length, drop, replicate, IfErr, IfNone, IfOk, IsSome};
ghost use Rattle.std.specs.List.{list_all};
ghost use Rattle.mix_bits.specs.Sizes.{bytes_of};
ghost use Rattle.big_memory.specs.Numbers.{number_at};
ghost use Rattle.routine_desc.specs.Layout.{are_good_flags, bad_header, bad_record, code_at, record_at, target_of};
ghost use Rattle.routine_desc.specs.LayoutClauses.{no_record};
ghost use Rattle.proc_info.specs.Codes.{conv_at};
ghost use Rattle.routine_desc.specs.inner.Read.{FillsRecord, FillsRecords, ReadsBody, is_dispatched_in};
ghost use Rattle.routine_desc.specs.ReadClauses.{Counts, FillsBody, Reads, TellsHeader};
ghost use Rattle.routine_desc.specs.Read.{all_alike as all_alike_lem, is_alike as is_alike_lem};

use super::flags::RoutineFlags;
use super::record::{BadDesc, Desc, MIXED_MODE_MAGIC, MOST_RECORDS, Rec};
use super::signed::Signed;
use big_memory::Ram;
use bitflags::Flags;
use mix_bits::{Isa, Size};
use proc_info::Conv;

/// The version of a descriptor.
const VERSION: u32 = 7;

/// How many bytes stand before the first record.
const HEADER_BYTES: u32 = 12;

/// How many bytes a record has.
const RECORD_BYTES: u32 = 20;

/// The descriptor at an address, or the first rule that it breaks. Guards do not matter. Past the last
/// record it holds `Rec::empty()`.
pub fn read_desc(ram: &Ram, a: u32) -> Result<Desc, BadDesc>
    ensures value { Reads ram.now a result }
    ensures rest { IfOk result (λ desc. drop desc.count desc.recs ≡ replicate (64 - desc.count) no_record) }
{
    match broken_header(ram, a) {
        Some(bad) => Err(bad),
        None => read_body(ram, a),
    }
}

/// How many records the descriptor at an address has, or the first rule that its header breaks. Guards do
/// not matter.
pub fn count_records(ram: &Ram, a: u32) -> Result<u32, BadDesc>
    ensures value { Counts ram.now a result }
    ensures header { TellsHeader ram.now a result }
    ensures within { IfOk result (λ _. a + 12 ≤ length ram.now.bytes) }
    ensures few { IfOk result (λ count. count ≤ 64) }
{
    ram.meets_invariant();
    match broken_header(ram, a) {
        Some(bad) => Err(bad),
        None => Ok(number(ram, a + 10, Size::Two) + 1),
    }
}

/// Fills the list with all records of a descriptor whose header is good, or answers the first rule that
/// they break; then the list may hold anything. It may change `signed`, to the procInfo of any record.
#[inline(always)]
pub fn read_all(ram: &Ram, a: u32, recs: &mut [Rec], signed: &mut Signed) -> Result<(), BadDesc>
    requires header { a + 12 ≤ length ram.now.bytes }
    requires few { length recs.old ≤ 64 }
    requires all { length recs.old ≡ number_at (a + 10) 2 ram.now.bytes + 1 }
    ensures { FillsBody ram.now a recs.new result }
{
    match read_records(ram, a, recs, signed) {
        Ok(()) => {
            if all_alike(recs) {
                Ok(())
            } else {
                Err(BadDesc::Mixed)
            }
        }
        Err(bad) => Err(bad),
    }
}

/// The records of a descriptor whose header is good.
fn read_body(ram: &Ram, a: u32) -> Result<Desc, BadDesc>
    requires header { a + 12 ≤ length ram.now.bytes }
    requires few { number_at (a + 10) 2 ram.now.bytes ≤ 63 }
    ensures value { ReadsBody ram.now a result }
    ensures rest { IfOk result (λ desc. drop desc.count desc.recs ≡ replicate (64 - desc.count) no_record) }
{
    ram.meets_invariant();
    let count = number(ram, a + 10, Size::Two) + 1;
    let empty = Rec::empty();
    let mut recs = [empty; MOST_RECORDS];
    let mut signed = Signed::empty();
    match read_all(ram, a, &mut recs[..count as usize], &mut signed) {
        Ok(()) => Ok(Desc { at: a, count, recs }),
        Err(bad) => Err(bad),
    }
}

/// The first rule that a header breaks.
fn broken_header(ram: &Ram, a: u32) -> Option<BadDesc>
    ensures value { result ≡ bad_header ram.now a }
    ensures within { IfNone result (a + 12 ≤ length ram.now.bytes) }
    ensures few { IfNone result (number_at (a + 10) 2 ram.now.bytes ≤ 63) }
{
    ram.meets_invariant();
    if !ram.has(a, HEADER_BYTES) {
        Some(BadDesc::Access)
    } else if number(ram, a, Size::Two) != MIXED_MODE_MAGIC {
        Some(BadDesc::Magic)
    } else if number(ram, a + 2, Size::One) != VERSION {
        Some(BadDesc::Version)
    } else if number(ram, a + 4, Size::Four) != 0 || number(ram, a + 8, Size::One) != 0 {
        Some(BadDesc::Reserved)
    } else if number(ram, a + 10, Size::Two) >= MOST_RECORDS as u32 {
        Some(BadDesc::Count)
    } else {
        None
    }
}

/// The first rule that a record breaks, but for the signature of its procInfo.
fn broken_record(ram: &Ram, p: u32) -> Option<BadDesc>
    ensures value { result ≡ bad_record ram.now p }
    ensures within { IfNone result (p + 20 ≤ length ram.now.bytes) }
    ensures code { IfNone result (IsSome (code_at (number_at (p + 5) 1 ram.now.bytes))) }
{
    ram.meets_invariant();
    if !ram.has(p, RECORD_BYTES) {
        Some(BadDesc::Access)
    } else if number(ram, p + 4, Size::One) != 0 || number(ram, p + 12, Size::Four) != 0 {
        Some(BadDesc::Reserved)
    } else if code_of(number(ram, p + 5, Size::One)).is_none() {
        Some(BadDesc::Isa)
    } else if !have_meaning(number(ram, p + 6, Size::Two)) {
        Some(BadDesc::Flags)
    } else {
        None
    }
}

/// Reads a record, or answers the rule that it breaks; then the record is as it was.
#[inline(never)]
#[tactic(auto, unfolding(crate::specs::Read::read_record))]
fn read_record(ram: &Ram, a: u32, p: u32, rec: &mut Rec, signed: &mut Signed) -> Result<(), BadDesc>
    ensures record { FillsRecord ram.now a p rec.new result }
    ensures stays { IfErr result (λ bad. rec.new ≡ rec.old) }
{
    match broken_record(ram, p) {
        Some(bad) => Err(bad),
        None => match signed.sign(number(ram, p, Size::Four)) {
            Ok(()) => {
                *rec = record(ram, a, p);
                Ok(())
            }
            Err(bad) => Err(BadDesc::Info(bad)),
        },
    }
}

/// The record at `p` of the descriptor at `a`.
fn record(ram: &Ram, a: u32, p: u32) -> Rec
    requires within { p + 20 ≤ length ram.now.bytes }
    requires code { IsSome (code_at (number_at (p + 5) 1 ram.now.bytes)) }
    ensures { result ≡ record_at ram.now a p }
{
    ram.meets_invariant();
    let (isa, cfm) = code_of(number(ram, p + 5, Size::One)).unwrap();
    let flags = number(ram, p + 6, Size::Two);
    Rec {
        info: number(ram, p, Size::Four),
        isa,
        flags,
        target: target(a, flags, number(ram, p + 8, Size::Four)),
        selector: number(ram, p + 16, Size::Four),
        cfm,
    }
}

/// The set of an ISA code's routine, and whether it is CFM-68K code.
fn code_of(code: u32) -> Option<(Isa, bool)>
    ensures { result ≡ code_at code }
{
    match code {
        0 => Some((Isa::M68, false)),
        1 => Some((Isa::Ppc, false)),
        0x10 => Some((Isa::M68, true)),
        _ => None,
    }
}

/// The target: procDescriptor, or its distance from the descriptor.
fn target(a: u32, flags: u32, proc: u32) -> u32
    ensures { result ≡ target_of a flags proc }
{
    if RoutineFlags::RELATIVE.is_in(flags) {
        a.wrapping_add(proc)
    } else {
        proc
    }
}

/// Whether flags have a meaning for this host.
fn have_meaning(flags: u32) -> bool
    ensures { result ≡ are_good_flags flags }
{
    flags < RoutineFlags::INDEX.bits() && !RoutineFlags::NEEDS_PREPARING.is_in(flags)
}

/// Fills the list with the records of a descriptor, from the first one on.
fn read_records(ram: &Ram, a: u32, recs: &mut [Rec], signed: &mut Signed) -> Result<(), BadDesc>
    requires header { a + 12 ≤ length ram.now.bytes }
    requires few { length recs.old ≤ 64 }
    ensures { FillsRecords ram.now a recs.old recs.new result }
{
    ram.meets_invariant();
    for k in 0..recs.len() {
        let p = a + HEADER_BYTES + RECORD_BYTES * k as u32;
        match read_record(ram, a, p, &mut recs[k], signed) {
            Ok(()) => {}
            Err(bad) => return Err(bad),
        }
    }
    Ok(())
}

/// Whether all records are called like the first one.
fn all_alike(recs: &[Rec]) -> bool
    ensures { result ≡ all_alike_lem recs.now }
{
    match recs {
        [] => true,
        [first, others @ ..] => are_like(first.info, others),
    }
}

/// Whether all records are called as a procInfo word says.
fn are_like(info: u32, recs: &[Rec]) -> bool
    ensures { result ≡ list_all (λ other. is_alike_lem info other.info) recs.now }
{
    match recs {
        [] => true,
        [first, others @ ..] => is_alike(info, first.info) && are_like(info, others),
    }
}

/// Whether two procInfo words are of one convention, and of one selector size or else the same.
fn is_alike(info: u32, other: u32) -> bool
    ensures { result ≡ is_alike_lem info other }
{
    if info % 16 != other % 16 {
        false
    } else if is_dispatched(info % 16) {
        info / 64 % 4 == other / 64 % 4
    } else {
        info == other
    }
}

/// Whether the convention of this number is dispatched.
fn is_dispatched(code: u32) -> bool
    ensures { result ≡ is_dispatched_in (conv_at code) }
{
    match Conv::at(code) {
        Ok(conv) => conv.is_dispatched(),
        Err(_) => false,
    }
}

/// The number in the bytes at `a`.
#[inline(always)]
fn number(ram: &Ram, a: u32, s: Size) -> u32
    requires { a + bytes_of s ≤ length ram.now.bytes }
    ensures { result ≡ number_at a (bytes_of s) ram.now.bytes }
{
    ram.read(a, s)
}
