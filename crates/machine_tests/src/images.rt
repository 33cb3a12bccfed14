// Images are built here by the format's table, byte by byte.
use crate::equal::{equal, must};
use big_memory::Access;
use mix_image::{ImageError, restore, save};
use mix_io::{Failed, MemKeep};
use std::alloc::Global;
use std::process::Abort;

/// How many bytes the image without frames has: 33 longs, 126 pages of zeros, and the two of the gate page.
const LENGTH: usize = 132 + 126 + 2 * 1025;

/// The frames of an image: none, one of each instruction set, or so many of 68K callers that called 68K code.
#[derive(Clone, Copy)]
enum Frames {
    None,
    Two,
    Row(u32),
}

impl Frames {
    /// Where the innermost one begins.
    fn top(self) -> u32 {
        match self {
            Frames::None => 0,
            Frames::Two => 0x1_FE70,
            Frames::Row(count) => 0x2_0000 - 112 * count.min(290),
        }
    }

    /// The long at an address of the stack, with the end of RAM at 0x20000.
    fn long(self, address: u32) -> u32 {
        match self {
            Frames::None => 0,
            Frames::Two => two_long(address),
            Frames::Row(count) => row_long(count, address),
        }
    }
}

/// The frame of a 68K caller at 0x1FF70, which called PowerPC code, and inside it that of this code at
/// 0x1FE70, which called 68K code.
fn two_long(address: u32) -> u32 {
    match address {
        0x1_FE70 => 0x1_FF70,
        0x1_FE74 => 2,
        0x1_FE78 | 0x1_FF78 => 0x3B0,
        0x1_FE80 | 0x1_FF80 => 0x1_0040,
        0x1_FE84 => 0x1_FF30,
        0x1_FE8C => 2,
        0x1_FF74 | 0x1_FF8C => 1,
        0x1_FF84 => 0x1_FFE0,
        0x1_FFD4 => 31,
        _ => 0,
    }
}

/// Frames of 112 bytes, each below the one before it, from the end of RAM down.
fn row_long(count: u32, address: u32) -> u32 {
    let below = 0x1_FFFF - address.min(0x1_FFFF);
    let outer = below / 112;
    let lo = 0x2_0000 - 112 * (outer + 1).min(1000);
    if outer >= count {
        return 0;
    }
    match 111 - below % 112 {
        0 if outer > 0 => lo + 112,
        4 => 4,
        8 => 0x3B0,
        20 => lo + 112,
        28 => outer + 1,
        _ => 0,
    }
}

/// The image of a 68K program with 128 KiB of RAM and two blocks.
fn image(rt: &impl Abort, alloc: Global, frames: Frames) -> Vec<u8> {
    let mut bytes = Vec::new(alloc);
    push(rt, &mut bytes, b"MIXIMG01");
    let head = [128, 0x1_2000, 0, 0x2_0000, 0x1_0000, 0x1_8000, 2];
    push_longs(rt, &mut bytes, &head);
    push_longs(rt, &mut bytes, &[0x1_0000, 16, 0x1_0018, 8]);
    push_longs(rt, &mut bytes, &[frames.top(), 0]);
    push_longs(rt, &mut bytes, &[7; 17]);
    push_longs(rt, &mut bytes, &[31]);
    for page in 0..128 {
        push_page(rt, &mut bytes, page, frames);
    }
    bytes
}

fn push(rt: &impl Abort, bytes: &mut Vec<u8>, more: &[u8]) {
    bytes.extend_from_slice(more).expect(rt, "no room");
}

fn push_longs(rt: &impl Abort, bytes: &mut Vec<u8>, longs: &[u32]) {
    for long in longs {
        push(rt, bytes, &long.to_be_bytes());
    }
}

/// The page of RAM with this number.
fn push_page(rt: &impl Abort, bytes: &mut Vec<u8>, page: u32, frames: Frames) {
    let mut longs = [0; 256];
    for k in 0..256u32 {
        longs[k as usize] = ram_long(1024 * page.min(127) + 4 * k, frames);
    }
    if longs.iter().all(|long| *long == 0) {
        push(rt, bytes, &[0]);
    } else {
        push(rt, bytes, &[1]);
        push_longs(rt, bytes, &longs);
    }
}

/// The entry, the main vector, A5, the size of RAM and the transition vectors of the host functions, and the frames.
fn ram_long(address: u32, frames: Frames) -> u32 {
    match address {
        0x1020 => 0x1_0000,
        0x1028 => 0x1_2000,
        0x102C => 0x2_0000,
        0x1400..0x1478 if address % 8 == 0 => 0x1800 + (address - 0x1400) / 2,
        0x1_8000.. => frames.long(address),
        _ => 0,
    }
}

/// Why bytes are refused, if they are.
fn refusal(alloc: Global, bytes: &[u8]) -> Option<ImageError> {
    restore(alloc, bytes).err()
}

/// The same with a long changed, which is undone.
fn refusal_with(alloc: Global, bytes: &mut [u8], at: usize, long: u32) -> Option<ImageError> {
    if bytes.len() < 4 || at > bytes.len() - 4 {
        return None;
    }
    let mut old = [0; 4];
    old.copy_from_slice(&bytes[at..at + 4]);
    bytes[at..at + 4].copy_from_slice(&long.to_be_bytes());
    let refusal = refusal(alloc, bytes);
    bytes[at..at + 4].copy_from_slice(&old);
    refusal
}

/// Each row changes one long, and is refused so.
fn are_refused(
    rt: &impl Abort,
    alloc: Global,
    bytes: &mut [u8],
    rows: &[(usize, u32, ImageError)],
) {
    for (at, long, error) in rows {
        equal(
            rt,
            *at,
            refusal_with(alloc, bytes, *at, *long),
            Some(*error),
        );
    }
}

#[test]
fn each_field_is_refused_with_its_number(rt: HostRuntime) {
    let alloc = rt.alloc();
    let mut bytes = image(&rt, alloc, Frames::None);
    equal(&rt, "the length", bytes.len(), LENGTH);
    equal(&rt, "the image", refusal(alloc, &bytes), None);
    are_refused(
        &rt,
        alloc,
        &mut bytes,
        &[
            (0, 0x6D49_5849, ImageError::Magic),
            (4, 0x4D47_3032, ImageError::Magic),
            (8, 127, ImageError::Ram(127)),
            (8, 16385, ImageError::Ram(16385)),
            (16, 2, ImageError::Main(2)),
            (20, 0x1_FFC0, ImageError::StartSp(0x1_FFC0)),
            (24, 0x1_0008, ImageError::Heap),
            (24, 0xFFF0, ImageError::Heap),
            (24, 0x1_8010, ImageError::Heap),
            (28, 0x1_7FF0, ImageError::Heap),
            (32, 4097, ImageError::Block(4097)),
            (36, 0xFFF8, ImageError::Block(0)),
            (36, 0x1_0004, ImageError::Block(0)),
            (36, 0x1_0010, ImageError::Block(1)),
            (40, 0, ImageError::Block(0)),
            (40, 12, ImageError::Block(0)),
            (40, 0xFFFF_FFF8, ImageError::Block(0)),
            (44, 0x1_0008, ImageError::Block(1)),
            (44, 0x1_8000, ImageError::Block(1)),
            (56, 2, ImageError::Active(2)),
            (128, 32, ImageError::Ccr(32)),
            (132, 0x0200_0000, ImageError::Page(0)),
            (132, 0x0000_0200, ImageError::Page(2)),
            (12, 0x1_2004, ImageError::Gate(0x1028)),
            (52, 0x2_0000, ImageError::Frame(0x2_0000)),
            (52, 0x1_8000, ImageError::Frame(0x1_8000)),
        ],
    );
}

#[test]
fn another_set_than_the_main_programs_is_refused_without_a_frame(rt: HostRuntime) {
    let alloc = rt.alloc();
    let mut bytes = image(&rt, alloc, Frames::None);
    must(&rt, bytes.len() > 24);
    bytes[16..24].copy_from_slice(&[0, 0, 0, 1, 0, 1, 0xFF, 0xC0]);
    equal(
        &rt,
        "the set",
        refusal(alloc, &bytes),
        Some(ImageError::Frame(0)),
    );
}

/// So many bytes of an image are too short for one.
fn is_short(rt: &impl Abort, alloc: Global, bytes: &[u8], length: u32) {
    must(rt, length as usize <= bytes.len());
    let found = refusal(alloc, &bytes[..length as usize]);
    equal(rt, length, found, Some(ImageError::Short(length)));
}

#[test]
fn a_beginning_of_an_image_is_short(rt: HostRuntime) {
    let bytes = image(&rt, rt.alloc(), Frames::None);
    for length in 0..LENGTH as u32 {
        is_short(&rt, rt.alloc(), &bytes, length);
    }
}

/// The bytes of an image before a place, and a page of zeros that is spelled.
fn spelled_to(rt: &impl Abort, alloc: Global, bytes: &[u8], place: usize) -> Vec<u8> {
    must(rt, place <= bytes.len());
    let mut spelled = Vec::new(alloc);
    push(rt, &mut spelled, &bytes[..place]);
    push(rt, &mut spelled, &[1]);
    push(rt, &mut spelled, &[0; 1024]);
    spelled
}

#[test]
fn a_byte_behind_an_image_and_a_page_of_zeros_are_refused(rt: HostRuntime) {
    let alloc = rt.alloc();
    let mut bytes = image(&rt, alloc, Frames::None);
    push(&rt, &mut bytes, &[0]);
    let extra = Some(ImageError::Extra(LENGTH as u32));
    equal(&rt, "a byte behind", refusal(alloc, &bytes), extra);
    let spelled = spelled_to(&rt, alloc, &bytes, 132);
    let page = Some(ImageError::Page(0));
    equal(&rt, "a page of zeros", refusal(alloc, &spelled), page);
}

/// The long with this number of the gate page's first half, but for two, and of its second must be what it is.
fn is_tested(rt: &impl Abort, alloc: Global, bytes: &mut [u8], k: u32) {
    must(rt, k < 256);
    let place = 137 + 4 * k as usize;
    let free = k == 8 || k == 9;
    let first = refusal_with(alloc, bytes, place, 0xABCD);
    let gate = ImageError::Gate(0x1000 + 4 * k);
    equal(rt, k, first, if free { None } else { Some(gate) });
    let second = refusal_with(alloc, bytes, place + 1025, 0xABCD);
    equal(rt, k, second, Some(ImageError::Gate(0x1400 + 4 * k)));
}

#[test]
fn each_long_of_the_gate_page_is_tested(rt: HostRuntime) {
    let mut bytes = image(&rt, rt.alloc(), Frames::None);
    for k in 0..256 {
        is_tested(&rt, rt.alloc(), &mut bytes, k);
    }
}

/// Each long of a page that is spelled behind a place must be 0; the first is at an address.
fn are_zeros(rt: &impl Abort, alloc: Global, spelled: &mut [u8], place: usize, from: u32) {
    must(rt, place < 10_000);
    must(rt, from < 10_000);
    for k in 0..256 {
        let found = refusal_with(alloc, spelled, place + 1 + 4 * k as usize, 0xABCD);
        equal(rt, k, found, Some(ImageError::Gate(from + 4 * k)));
    }
}

/// The page of zeros whose one byte stands at a place is spelled, and then each of its longs changed.
fn is_zeros(rt: &impl Abort, alloc: Global, bytes: &[u8], place: usize, from: u32) {
    must(rt, place < bytes.len());
    let mut spelled = spelled_to(rt, alloc, bytes, place);
    push(rt, &mut spelled, &bytes[place + 1..]);
    are_zeros(rt, alloc, &mut spelled, place, from);
}

#[test]
fn each_long_of_the_half_of_zeros_is_tested(rt: HostRuntime) {
    let bytes = image(&rt, rt.alloc(), Frames::None);
    // The one byte of the page at 0x1800 stands at 2186, and that of the next one behind it.
    is_zeros(&rt, rt.alloc(), &bytes, 2186, 0x1800);
    is_zeros(&rt, rt.alloc(), &bytes, 2187, 0x1C00);
}

/// An image with so many frames is refused so.
fn is_chain(rt: &impl Abort, alloc: Global, count: u32, wanted: Option<ImageError>) {
    let bytes = image(rt, alloc, Frames::Row(count));
    equal(rt, count, refusal(alloc, &bytes), wanted);
}

#[test]
fn at_most_256_frames_are_a_chain(rt: HostRuntime) {
    is_chain(&rt, rt.alloc(), 1, None);
    is_chain(&rt, rt.alloc(), 255, None);
    is_chain(&rt, rt.alloc(), 256, None);
    let refused = Some(ImageError::Frame(0x1_8F90));
    is_chain(&rt, rt.alloc(), 257, refused);
}

/// What a keeper holds, by the name `s`, with so much room, whose keeps with these numbers fail.
fn keeper(rt: &impl Abort, alloc: Global, room: u32, fails: &[u32]) -> MemKeep {
    let name = String::from_str(alloc, "s").expect(rt, "no name");
    let fails = fails.to_vec(alloc).expect(rt, "no numbers");
    MemKeep::new(alloc, name, room, fails).expect(rt, "no keeper")
}

#[test]
fn an_image_before_more_bytes_than_any_has_is_refused(rt: HostRuntime) {
    let alloc = rt.alloc();
    let mut bytes = image(&rt, alloc, Frames::None);
    for _ in 0..17_406 {
        push(&rt, &mut bytes, &[0; 1024]);
    }
    equal(
        &rt,
        "a long image",
        refusal(alloc, &bytes),
        Some(ImageError::Extra(LENGTH as u32)),
    );
}

/// The machine of an image is saved to a keeper so, and the keeper then has these bytes.
fn is_saved(
    rt: &impl Abort,
    alloc: Global,
    bytes: &[u8],
    keeper: &mut MemKeep,
    answer: Result<(), Failed>,
    kept: &[u8],
) {
    let machine = restore(alloc, bytes).ok().expect(rt, "no machine");
    equal(rt, "saving", save(&machine, keeper, "s"), answer);
    equal(rt, "what is kept", keeper.kept(), kept);
}

/// A keeper with so much room, whose keep with this number fails, has so many bytes at the end.
fn is_cut(rt: &impl Abort, alloc: Global, bytes: &[u8], room: u32, fails: u32, kept: usize) {
    must(rt, kept <= bytes.len());
    let mut keeper = keeper(rt, alloc, room, &[fails]);
    is_saved(rt, alloc, bytes, &mut keeper, Err(Failed), &bytes[..kept]);
}

/// A keeper with enough room has the whole image.
fn is_kept(rt: &impl Abort, alloc: Global, bytes: &[u8]) {
    let mut keeper = keeper(rt, alloc, 20000, &[]);
    is_saved(rt, alloc, bytes, &mut keeper, Ok(()), bytes);
}

#[test]
fn a_restored_machine_is_saved_as_it_was(rt: HostRuntime) {
    let alloc = rt.alloc();
    let bytes = image(&rt, alloc, Frames::None);
    is_kept(&rt, alloc, &bytes);
    is_cut(&rt, alloc, &bytes, 20000, 2, 36);
    is_cut(&rt, alloc, &bytes, 10, 100_000, 10);
    is_cut(&rt, alloc, &bytes, 140, 100_000, 140);
}

/// In the memory of an image's machine, stores of so many bytes are answered so.
fn are_guarded(
    rt: &impl Abort,
    alloc: Global,
    bytes: &[u8],
    rows: &[(u32, u32, Result<(), Access>)],
) {
    let machine = restore(alloc, bytes).ok().expect(rt, "no machine");
    for (a, n, answer) in rows {
        equal(rt, *a, machine.body.ram.probe(*a, *n), *answer);
    }
}

#[test]
fn frames_are_guarded(rt: HostRuntime) {
    let alloc = rt.alloc();
    let bytes = image(&rt, alloc, Frames::Two);
    are_guarded(
        &rt,
        alloc,
        &bytes,
        &[
            (0x1_FE70, 1, Err(Access::Frame(0x1_FE70))),
            (0x1_FF2F, 1, Err(Access::Frame(0x1_FF2F))),
            (0x1_FF70, 112, Err(Access::Frame(0x1_FF70))),
            (0x1_FF30, 64, Ok(())),
            (0x1_FFE0, 32, Ok(())),
            (0x1_FE60, 16, Ok(())),
        ],
    );
    is_kept(&rt, alloc, &bytes);
}

/// Each row changes one long, and the frame there is refused.
fn are_no_frames(rt: &impl Abort, alloc: Global, bytes: &mut [u8], rows: &[(usize, u32, u32)]) {
    for (at, long, lo) in rows {
        let found = refusal_with(alloc, bytes, *at, *long);
        equal(rt, *at, found, Some(ImageError::Frame(*lo)));
    }
}

#[test]
fn frames_are_tested(rt: HostRuntime) {
    let alloc = rt.alloc();
    let mut bytes = image(&rt, alloc, Frames::Two);
    // The last page begins at 2308, behind its byte 1.
    are_no_frames(
        &rt,
        alloc,
        &mut bytes,
        &[
            (52, 0x1_FF70, 0x1_FF70),
            (52, 0x1_FE80, 0x1_FE80),
            (2308 + 0x270, 0x1_FF20, 0x1_FE70),
            (2308 + 0x270, 0xFFFF_FFF0, 0x1_FE70),
            (2308 + 0x270, 0xFFFF_FFE4, 0x1_FE70),
            (2308 + 0x270, 0xFFFF_FFE0, 0xFFFF_FFE0),
            (2308 + 0x274, 5, 0x1_FE70),
            (2308 + 0x278, 0x3B3, 0x1_FE70),
            (2308 + 0x284, 0x1_FF20, 0x1_FE70),
            (2308 + 0x28C, 3, 0x1_FE70),
            (2308 + 0x32C, 0x0001_0000, 0x1_FE70),
            (2308 + 0x370, 0x1_FFF0, 0x1_FFF0),
            (2308 + 0x38C, 2, 0x1_FE70),
            (2308 + 0x3D4, 32, 0x1_FF70),
            (2308 + 0x3DC, 1, 0x1_FF70),
        ],
    );
}
