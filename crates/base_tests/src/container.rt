ghost use Rattle.std.specs.Prelude.{◌≤◌, ◌^◌, length};

use crate::changes::{Change, changed};
use crate::equal::{equal, must};
use pef_head::{Import, Pef, PefError, Section};
use std::alloc::Global;
use std::process::Abort;

/// A program that writes `H`: code, data that is relocated, and an import. The loader section stands at
/// 156, its library at 212, its symbol at 236, its relocation header at 240 and its strings at 256.
const PROGRAM: [u8; 272] = [
    // the header: Joy!, peff, pwpc, version 1, a date, three versions, 3 sections of which 2 are loaded
    0x4A, 0x6F, 0x79, 0x21, 0x70, 0x65, 0x66, 0x66, 0x70, 0x77, 0x70, 0x63, 0x00, 0x00, 0x00, 0x01,
    0xA0, 0xB0, 0xC0, 0xD0, 0x00, 0x00, 0x00, 0x00, 0x00, 0x00, 0x00, 0x00, 0x00, 0x00, 0x00, 0x00,
    0x00, 0x03, 0x00, 0x02, 0x00, 0x00, 0x00, 0x00,
    // code: 20 bytes at 124, aligned to 16
    0xFF, 0xFF, 0xFF, 0xFF, 0x00, 0x00, 0x00, 0x00, 0x00, 0x00, 0x00, 0x14, 0x00, 0x00, 0x00, 0x14,
    0x00, 0x00, 0x00, 0x14, 0x00, 0x00, 0x00, 0x7C, 0x00, 0x04, 0x04, 0x00,
    // data: 12 bytes at 144 of 32 in memory, aligned to 4
    0xFF, 0xFF, 0xFF, 0xFF, 0x00, 0x00, 0x00, 0x00, 0x00, 0x00, 0x00, 0x20, 0x00, 0x00, 0x00, 0x0C,
    0x00, 0x00, 0x00, 0x0C, 0x00, 0x00, 0x00, 0x90, 0x01, 0x01, 0x02, 0x00,
    // loader: 116 bytes at 156
    0xFF, 0xFF, 0xFF, 0xFF, 0x00, 0x00, 0x00, 0x00, 0x00, 0x00, 0x00, 0x00, 0x00, 0x00, 0x00, 0x00,
    0x00, 0x00, 0x00, 0x74, 0x00, 0x00, 0x00, 0x9C, 0x04, 0x04, 0x02, 0x00,
    // the code's bytes
    0x81, 0x82, 0x00, 0x00, 0x80, 0x0C, 0x00, 0x00, 0x7C, 0x09, 0x03, 0xA6, 0x38, 0x60, 0x00, 0x48,
    0x4E, 0x80, 0x04, 0x20,
    // the data's bytes
    0x00, 0x00, 0x00, 0x00, 0x00, 0x00, 0x00, 0x00, 0x00, 0x00, 0x00, 0x00,
    // main is in section 1 at 4; no init, no term; a library, a symbol and a relocation header; the
    // relocation area at 96 and the strings at 100
    0x00, 0x00, 0x00, 0x01, 0x00, 0x00, 0x00, 0x04, 0xFF, 0xFF, 0xFF, 0xFF, 0x00, 0x00, 0x00, 0x00,
    0xFF, 0xFF, 0xFF, 0xFF, 0x00, 0x00, 0x00, 0x00, 0x00, 0x00, 0x00, 0x01, 0x00, 0x00, 0x00, 0x01,
    0x00, 0x00, 0x00, 0x01, 0x00, 0x00, 0x00, 0x60, 0x00, 0x00, 0x00, 0x64, 0x00, 0x00, 0x00, 0x74,
    0x00, 0x00, 0x00, 0x00, 0x00, 0x00, 0x00, 0x00,
    // the library: its name at 0, one symbol from 0 on
    0x00, 0x00, 0x00, 0x00, 0x00, 0x00, 0x00, 0x00, 0x00, 0x00, 0x00, 0x00, 0x00, 0x00, 0x00, 0x01,
    0x00, 0x00, 0x00, 0x00, 0x00, 0x00, 0x00, 0x00,
    // the symbol: a transition vector, its name at 8
    0x02, 0x00, 0x00, 0x08,
    // the relocation header: section 1, 2 words from 0 on; and its words
    0x00, 0x01, 0x00, 0x00, 0x00, 0x00, 0x00, 0x02, 0x00, 0x00, 0x00, 0x00, 0x60, 0x00, 0x46, 0x00,
    // HostLib, PutByte
    0x48, 0x6F, 0x73, 0x74, 0x4C, 0x69, 0x62, 0x00, 0x50, 0x75, 0x74, 0x42, 0x79, 0x74, 0x65, 0x00,
];

/// A loader section alone, at 68: libraries `A` at 124 with symbol 1 and `B` at 148 with symbol 0, and the
/// symbols `x`, weak, at 172 and `yz` at 176.
const LIBRARIES: [u8; 189] = [
    // the header: one section, none of them loaded
    0x4A, 0x6F, 0x79, 0x21, 0x70, 0x65, 0x66, 0x66, 0x70, 0x77, 0x70, 0x63, 0x00, 0x00, 0x00, 0x01,
    0x00, 0x00, 0x00, 0x00, 0x00, 0x00, 0x00, 0x00, 0x00, 0x00, 0x00, 0x00, 0x00, 0x00, 0x00, 0x00,
    0x00, 0x01, 0x00, 0x00, 0x00, 0x00, 0x00, 0x00,
    // loader: 121 bytes at 68
    0xFF, 0xFF, 0xFF, 0xFF, 0x00, 0x00, 0x00, 0x00, 0x00, 0x00, 0x00, 0x00, 0x00, 0x00, 0x00, 0x00,
    0x00, 0x00, 0x00, 0x79, 0x00, 0x00, 0x00, 0x44, 0x04, 0x04, 0x02, 0x00,
    // no main, no init, no term; two libraries, two symbols and no relocation header; the strings at 112
    0xFF, 0xFF, 0xFF, 0xFF, 0x00, 0x00, 0x00, 0x00, 0xFF, 0xFF, 0xFF, 0xFF, 0x00, 0x00, 0x00, 0x00,
    0xFF, 0xFF, 0xFF, 0xFF, 0x00, 0x00, 0x00, 0x00, 0x00, 0x00, 0x00, 0x02, 0x00, 0x00, 0x00, 0x02,
    0x00, 0x00, 0x00, 0x00, 0x00, 0x00, 0x00, 0x70, 0x00, 0x00, 0x00, 0x70, 0x00, 0x00, 0x00, 0x00,
    0x00, 0x00, 0x00, 0x00, 0x00, 0x00, 0x00, 0x00,
    // the libraries
    0x00, 0x00, 0x00, 0x00, 0x00, 0x00, 0x00, 0x00, 0x00, 0x00, 0x00, 0x00, 0x00, 0x00, 0x00, 0x01,
    0x00, 0x00, 0x00, 0x01, 0x00, 0x00, 0x00, 0x00, 0x00, 0x00, 0x00, 0x02, 0x00, 0x00, 0x00, 0x00,
    0x00, 0x00, 0x00, 0x00, 0x00, 0x00, 0x00, 0x01, 0x00, 0x00, 0x00, 0x00, 0x00, 0x00, 0x00, 0x00,
    // the symbols
    0x82, 0x00, 0x00, 0x04, 0x7F, 0x00, 0x00, 0x06,
    // A, B, x, yz
    0x41, 0x00, 0x42, 0x00, 0x78, 0x00, 0x79, 0x7A, 0x00,
];

/// What a container says.
#[derive(Clone, Copy)]
enum Fact<'a> {
    /// How many sections are loaded, and how many symbols are imported.
    Counts(u32, u32),
    /// A section, by its number.
    Holds(u32, Section<'a>),
    Main(Option<(u32, u32)>),
    /// The relocations of a section.
    Relocs(u32, &'a [u8]),
    /// An imported symbol, by its number.
    Imports(u32, Import<'a>),
    /// The library of each symbol.
    Owners(&'a [u32]),
    /// The relocation header of each section.
    Headers(&'a [Option<u32>]),
}

/// A container with these changes is read, and says this.
fn reads(rt: &impl Abort, alloc: Global, container: &[u8], changes: &[Change], facts: &[Fact]) {
    must(rt, container.len() <= 272);
    let file = changed(rt, container, changes);
    let pef = Pef::read(&file[..container.len()]).expect(rt, "no container");
    for fact in facts {
        says(rt, alloc, &pef, *fact);
    }
}

fn says(rt: &impl Abort, alloc: Global, pef: &Pef, fact: Fact) {
    match fact {
        Fact::Counts(sections, imports) => {
            let found = (pef.sections(), pef.imports());
            equal(rt, "the counts", found, (sections, imports));
        }
        Fact::Holds(k, wanted) => {
            must(rt, k < pef.sections());
            let found = pef.section(k);
            equal(rt, "a section", found, wanted);
            equal(rt, "pattern data", found.is_pattern(), wanted.kind == 2);
        }
        Fact::Main(wanted) => equal(rt, "main", pef.main(), wanted),
        Fact::Relocs(k, wanted) => {
            must(rt, k < pef.sections());
            equal(rt, "the relocations", pef.relocs(k), wanted);
        }
        Fact::Imports(i, wanted) => {
            must(rt, i < pef.imports());
            equal(rt, "a symbol", pef.import(i), wanted);
        }
        Fact::Owners(wanted) => has_owners(rt, alloc, pef, wanted),
        Fact::Headers(wanted) => has_headers(rt, alloc, pef, wanted),
    }
}

fn has_owners(rt: &impl Abort, alloc: Global, pef: &Pef, wanted: &[u32]) {
    let owners = pef.owners(alloc).expect(rt, "no memory");
    equal(rt, "the libraries", owners.as_slice(), wanted);
}

fn has_headers(rt: &impl Abort, alloc: Global, pef: &Pef, wanted: &[Option<u32>]) {
    let headers = pef.reloc_headers(alloc).expect(rt, "no memory");
    equal(rt, "the headers", headers.as_slice(), wanted);
}

/// A container is refused so; `what` tells it from others.
fn is_refused(rt: &impl Abort, what: usize, file: &[u8], wanted: PefError)
    requires { length file.now ≤ 2 ^ 24 }
{
    equal(rt, what, Pef::read(file).err(), Some(wanted));
}

/// A place, the bytes that are put there, and the refusal.
type Refusal = (usize, &'static [u8], PefError);

/// The container is refused so with each change.
fn are_refused(rt: &impl Abort, container: &[u8], rows: &[Refusal]) {
    must(rt, container.len() <= 272);
    for (place, bytes, wanted) in rows {
        let file = changed(rt, container, &[(*place, *bytes)]);
        is_refused(rt, *place, &file[..container.len()], *wanted);
    }
}

#[test]
fn reads_a_program(rt: HostRuntime) {
    let code = Section {
        kind: 0,
        total: 20,
        unpacked: 20,
        align: 16,
        bytes: &PROGRAM[124..144],
    };
    let data = Section {
        kind: 1,
        total: 32,
        unpacked: 12,
        align: 4,
        bytes: &PROGRAM[144..156],
    };
    let put_byte = Import {
        library: b"HostLib",
        name: b"PutByte",
        weak: false,
    };
    let facts = [
        Fact::Counts(2, 1),
        Fact::Holds(0, code),
        Fact::Holds(1, data),
        Fact::Main(Some((1, 4))),
        Fact::Relocs(0, b""),
        Fact::Relocs(1, &[0x60, 0x00, 0x46, 0x00]),
        Fact::Imports(0, put_byte),
        Fact::Owners(&[0]),
        Fact::Headers(&[None, Some(0)]),
    ];
    reads(&rt, rt.alloc(), &PROGRAM, &[], &facts);
}

#[test]
fn reads_libraries_in_any_order(rt: HostRuntime) {
    let first = Import {
        library: b"B",
        name: b"x",
        weak: true,
    };
    let second = Import {
        library: b"A",
        name: b"yz",
        weak: false,
    };
    let facts = [
        Fact::Counts(0, 2),
        Fact::Main(None),
        Fact::Imports(0, first),
        Fact::Imports(1, second),
        Fact::Owners(&[1, 0]),
        Fact::Headers(&[]),
    ];
    reads(&rt, rt.alloc(), &LIBRARIES, &[], &facts);
}

#[test]
fn reads_a_library_without_symbols(rt: HostRuntime) {
    // A has none, B has both
    let changes: [Change; 2] = [(139, &[0]), (163, &[2])];
    let second = Import {
        library: b"B",
        name: b"yz",
        weak: false,
    };
    let facts = [Fact::Counts(0, 2), Fact::Imports(1, second)];
    reads(&rt, rt.alloc(), &LIBRARIES, &changes, &facts);
}

#[test]
fn reads_what_the_rules_allow(rt: HostRuntime) {
    // pattern data of another packed size; an alignment of 4096; main in section 65535
    let changes: [Change; 4] = [(92, &[2]), (87, &[5]), (94, &[12]), (158, &[0xFF, 0xFF])];
    let pattern = Section {
        kind: 2,
        total: 32,
        unpacked: 12,
        align: 4096,
        bytes: &PROGRAM[144..149],
    };
    let facts = [Fact::Holds(1, pattern), Fact::Main(Some((65535, 4)))];
    reads(&rt, rt.alloc(), &PROGRAM, &changes, &facts);
}

#[test]
fn reads_two_relocation_headers(rt: HostRuntime) {
    // a second header at 252, for section 0 and then for section 1 again
    let changes: [Change; 2] = [(191, &[2]), (252, &[0; 12])];
    let facts = [Fact::Relocs(0, b""), Fact::Relocs(1, &[0; 4])];
    reads(&rt, rt.alloc(), &PROGRAM, &changes, &facts);
    let file = changed(&rt, &PROGRAM, &changes);
    are_refused(&rt, &file, &[(253, &[1], PefError::Loader(252))]);
}

#[test]
fn refuses_each_cut(rt: HostRuntime) {
    for len in 0..PROGRAM.len() {
        let wanted = match len {
            0..124 => PefError::Short(len as u32),
            124..144 => PefError::Section(0),
            144..156 => PefError::Section(1),
            _ => PefError::Section(2),
        };
        is_refused(&rt, len, &PROGRAM[..len], wanted);
    }
}

static BAD_HEADERS: &[Refusal] = &[
    (0, b"K", PefError::Magic),
    (7, b"F", PefError::Magic),
    (8, b"m", PefError::Architecture),
    (15, &[2], PefError::Version),
    (12, &[1], PefError::Version),
    // 65283 sections; the loader section is instantiated, alone and with one that is not there
    (32, &[0xFF], PefError::Short(272)),
    (35, &[3], PefError::Section(2)),
    (35, &[4], PefError::Section(2)),
    // code: as the loader, debug, exception and traceback; an alignment of 2^13; a total or an
    // unpacked size that is smaller; another packed size; bytes behind the file
    (64, &[4], PefError::Section(0)),
    (64, &[5], PefError::Section(0)),
    (64, &[7], PefError::Section(0)),
    (64, &[8], PefError::Section(0)),
    (64, &[0xFF], PefError::Section(0)),
    (66, &[13], PefError::Section(0)),
    (51, &[19], PefError::Section(0)),
    (55, &[19], PefError::Section(0)),
    (59, &[19], PefError::Section(0)),
    (60, &[0xFF], PefError::Section(0)),
    // data: a larger unpacked size, within the total
    (83, &[13], PefError::Section(1)),
    // the loader section's bytes leave the file; it is no loader section
    (115, &[0x75], PefError::Section(2)),
    (120, &[5], PefError::NoLoader),
];

#[test]
fn refuses_bad_headers(rt: HostRuntime) {
    are_refused(&rt, &PROGRAM, BAD_HEADERS);
}

static BAD_LOADER_SECTIONS: &[Refusal] = &[
    // 55 bytes; four libraries; 2^24 symbols more, and 4294967295; ten relocation headers
    (115, &[55], PefError::Loader(156)),
    (183, &[4], PefError::Loader(212)),
    (184, &[1], PefError::Loader(236)),
    (184, &[0xFF; 4], PefError::Loader(236)),
    (191, &[10], PefError::Loader(240)),
    // the library's symbols: two, from 1 on, and none
    (227, &[2], PefError::Loader(212)),
    (231, &[1], PefError::Loader(212)),
    (227, &[0], PefError::Loader(236)),
    // relocations of section 2; eleven words; words at 20; an area far away
    (241, &[2], PefError::Loader(240)),
    (247, &[11], PefError::Loader(240)),
    (251, &[20], PefError::Loader(240)),
    (192, &[0xFF], PefError::Loader(240)),
    // names behind the section; names without a zero byte
    (215, &[16], PefError::Name(212)),
    (239, &[16], PefError::Name(236)),
    (271, b"!", PefError::Name(236)),
    (196, &[0xFF], PefError::Name(212)),
    (164, &[0], PefError::Init),
];

#[test]
fn refuses_bad_loader_sections(rt: HostRuntime) {
    are_refused(&rt, &PROGRAM, BAD_LOADER_SECTIONS);
}

static BAD_LIBRARIES: &[Refusal] = &[
    // B has both symbols; B has symbol 1, as A has; A has none
    (163, &[2], PefError::Loader(176)),
    (167, &[1], PefError::Loader(172)),
    (139, &[0], PefError::Loader(176)),
];

#[test]
fn refuses_symbols_of_no_library_or_two(rt: HostRuntime) {
    are_refused(&rt, &LIBRARIES, BAD_LIBRARIES);
}

#[test]
fn tells_the_first_of_two_faults(rt: HostRuntime) {
    // section 1 is a loader section too, of 12 bytes
    let file = changed(&rt, &PROGRAM, &[(92, &[4])]);
    are_refused(&rt, &file, &[(35, &[1], PefError::Loader(144))]);
    // no loader section, and one section more than there are
    let changes: [Change; 3] = [(120, &[6]), (107, &[0x74]), (111, &[0x74])];
    let file = changed(&rt, &PROGRAM, &changes);
    are_refused(&rt, &file, &[(35, &[4], PefError::Section(3))]);
    // a name without a zero byte, and an initialization routine
    let file = changed(&rt, &PROGRAM, &[(271, b"!")]);
    are_refused(&rt, &file, &[(164, &[0], PefError::Name(236))]);
}
