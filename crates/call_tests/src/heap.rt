ghost use Rattle.std.specs.Prelude.{◌≡◌, ◌≤◌, ◌%◌};

use crate::equal::equal;
use Step::{Append, Block, Bounds, Count, Free, Get, Place};
use host_heap::Heap;
use std::alloc::Global;
use std::process::Abort;

/// A call and what it is to answer: of `get` the size, of `free` the address, of `place` and `append` both, of `block`
/// the number.
#[derive(Clone, Copy)]
enum Step {
    Get(u32, Option<u32>),
    Free(u32, bool),
    Place(u32, u32, bool),
    Append(u32, u32, bool),
    Bounds(u32, u32),
    Count(u32),
    Block(u32, Option<(u32, u32)>),
}

/// The address and the size of the block with this number.
fn place_of(heap: &Heap, number: u32) -> Option<(u32, u32)> {
    if number < heap.count() {
        Some(heap.block(number))
    } else {
        None
    }
}

/// Whether each call, in order, answers as it is to.
fn answers(heap: &mut Heap, steps: &[Step]) -> bool {
    for step in steps {
        let good = match step {
            Get(size, wanted) => heap.get(*size) == *wanted,
            Free(address, wanted) => heap.free(*address) == *wanted,
            Place(address, size, wanted) => heap.place(*address, *size) == *wanted,
            Bounds(low, high) => heap.bounds() == (*low, *high),
            Count(wanted) => heap.count() == *wanted,
            Block(number, wanted) => place_of(heap, *number) == *wanted,
            Append(address, size, wanted) => heap.append(*address, *size) == *wanted,
        };
        if !good {
            return false;
        }
    }
    true
}

/// The calls answer so in a heap with these bounds.
fn works(rt: &impl Abort, alloc: Global, lo: u32, hi: u32, steps: &[Step])
    requires low { lo % 16 ≡ 0 }
    requires high { hi % 16 ≡ 0 }
    requires order { lo ≤ hi }
{
    let mut heap = Heap::new(alloc, lo, hi).expect(rt, "no heap");
    equal(rt, "the calls", answers(&mut heap, steps), true);
}

#[test]
fn gives_the_first_place_again(rt: HostRuntime) {
    works(
        &rt,
        rt.alloc(),
        0x2_0000,
        0x2_0020,
        &[
            Get(1, Some(0x2_0000)),
            Get(8, Some(0x2_0008)),
            Get(24, None),
            Free(0x2_0000, true),
            Free(0x2_0000, false),
            Get(8, Some(0x2_0000)),
        ],
    );
}

#[test]
fn fills_a_hole_between_blocks(rt: HostRuntime) {
    works(
        &rt,
        rt.alloc(),
        0x1_0000,
        0x1_0030,
        &[
            Get(16, Some(0x1_0000)),
            Get(16, Some(0x1_0010)),
            Get(16, Some(0x1_0020)),
            Get(0, None),
            Free(0x1_0018, false),
            Free(0x1_0010, true),
            Get(17, None),
            Get(0, Some(0x1_0010)),
            Get(9, None),
            Get(8, Some(0x1_0018)),
        ],
    );
}

#[test]
fn finds_no_place_in_a_heap_of_no_bytes(rt: HostRuntime) {
    works(
        &rt,
        rt.alloc(),
        0x1_0000,
        0x1_0000,
        &[Get(0, None), Get(u32::MAX, None), Free(0x1_0000, false)],
    );
}

#[test]
fn does_not_wrap_at_the_last_address(rt: HostRuntime) {
    works(
        &rt,
        rt.alloc(),
        0xffff_ffe0,
        0xffff_fff0,
        &[
            Get(u32::MAX, None),
            Get(17, None),
            Get(16, Some(0xffff_ffe0)),
            Get(1, None),
        ],
    );
}

#[test]
fn places_a_block_where_it_may_stand(rt: HostRuntime) {
    works(
        &rt,
        rt.alloc(),
        0x1_0000,
        0x1_0040,
        &[
            Place(0x1_0010, 16, true),
            // It would meet that block, from below, inside of it and from above.
            Place(0x1_0008, 16, false),
            Place(0x1_0010, 8, false),
            Place(0x1_0018, 16, false),
            // It has no byte, or its size or its address is no multiple of 8.
            Place(0x1_0020, 0, false),
            Place(0x1_0020, 12, false),
            Place(0x1_0024, 8, false),
            // It leaves the heap, below and above, and around the last address.
            Place(0xFFF8, 8, false),
            Place(0x1_0038, 16, false),
            Place(0x1_0038, 0xFFFF_FFF8, false),
            Get(33, None),
            Place(0x1_0000, 16, true),
            Place(0x1_0038, 8, true),
            Get(24, Some(0x1_0020)),
            Bounds(0x1_0000, 0x1_0040),
            Count(4),
            Block(0, Some((0x1_0000, 16))),
            Block(1, Some((0x1_0010, 16))),
            Block(2, Some((0x1_0020, 24))),
            Block(3, Some((0x1_0038, 8))),
            Block(4, None),
            Block(u32::MAX, None),
        ],
    );
}

#[test]
fn appends_a_block_behind_the_last_one(rt: HostRuntime) {
    works(
        &rt,
        rt.alloc(),
        0x1_0000,
        0x1_0040,
        &[
            Count(0),
            Block(0, None),
            Append(0xFFF8, 8, false),
            Append(0x1_0010, 8, true),
            // There is room, but not behind that block.
            Append(0x1_0000, 8, false),
            Append(0x1_0010, 8, false),
            Append(0x1_001C, 8, false),
            Append(0x1_0018, 0, false),
            Append(0x1_0018, 12, false),
            Append(0x1_0018, 8, true),
            Place(0x1_0000, 8, true),
            Append(0x1_0008, 8, false),
            Append(0x1_0038, 16, false),
            Append(0x1_0038, 8, true),
            Append(0x1_0040, 8, false),
            Count(4),
        ],
    );
}

#[test]
fn holds_4096_blocks(rt: HostRuntime) {
    let mut heap = Heap::new(rt.alloc(), 0x1_0000, 0x1_8010).expect(&rt, "no heap");
    for index in 0..4096u32 {
        equal(&rt, index, heap.get(8), Some(0x1_0000 + 8 * index));
    }
    let steps = &[
        Get(8, None),
        Place(0x1_8000, 8, false),
        Append(0x1_8000, 8, false),
        Free(0x1_0008, true),
        Append(0x1_8000, 16, true),
        Get(8, None),
    ];
    equal(&rt, "the calls", answers(&mut heap, steps), true);
}
