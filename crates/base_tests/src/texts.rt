// The texts of refusals.
use crate::equal::equal;
use pef_head::PefError;
use pef_reloc::RelocError;
use rsrc_fork::RsrcError;
use std::alloc::Global;
use std::fmt::Display;
use std::process::Abort;

/// A refusal is shown so.
fn shows<R: Display + Copy>(rt: &impl Abort, alloc: Global, refusal: R, wanted: &str) {
    let text = format!(in alloc; "{refusal}").expect(rt, "no memory");
    equal(rt, "the text", text.as_str(), wanted);
}

static OF_RELOCATIONS: &[(RelocError, &str)] = &[
    (RelocError::Pattern(4), "the pattern data is wrong at 4"),
    (
        RelocError::Short(6),
        "the relocation at 6 lacks its second word",
    ),
    (
        RelocError::Unsupported(0xB000),
        "the relocation word 0xb000 is not known",
    ),
    (
        RelocError::OutsideSection(32),
        "a relocation at position 32 leaves its section",
    ),
    (
        RelocError::ImportIndex(3),
        "a relocation names the import 3, which is missing",
    ),
    (
        RelocError::SectionIndex(2),
        "a relocation names the section 2, which is missing",
    ),
    (
        RelocError::RepeatFront(8),
        "the relocation at 8 repeats what cannot be repeated",
    ),
    (RelocError::Work, "too many relocations are to be run"),
];

#[test]
fn refusals_have_their_texts(rt: HostRuntime) {
    for (refusal, text) in OF_RELOCATIONS {
        shows(&rt, rt.alloc(), *refusal, text);
    }
    let text = "the name of what stands at 236 has no end";
    shows(&rt, rt.alloc(), PefError::Name(236), text);
    let text = "the resource -1 of type 0x434f4445 comes twice";
    shows(&rt, rt.alloc(), RsrcError::Twice(0x434F_4445, -1), text);
}
