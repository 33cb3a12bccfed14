// What the tests of arguments share: a memory, signatures and words.
use crate::equal::must;
use args_m68::Words;
use big_memory::Ram;
use proc_info::{Sig, read};
use std::alloc::Global;
use std::process::Abort;

/// Where the stacks of callees end.
pub const LO: u32 = 0x1_FF00;

/// Three arguments of a byte, a word and a long, with more above them.
pub const VALUES: [u32; 3] = [0x1122_33FF, 0x4455_6677, 0x8899_AABB];

/// The selector that dispatched callees are passed; two bytes of it count.
pub const SELECTOR: u32 = 0xABCD_1234;

/// Memory of 128 KiB.
pub fn memory(rt: &impl Abort, alloc: Global) -> Ram {
    Ram::new(alloc, 0x2_0000).expect(rt, "no memory")
}

/// The signature of a procInfo.
pub fn signature(rt: &impl Abort, info: u32) -> Sig {
    read(info).ok().expect(rt, "no procInfo")
}

/// Words of some values.
pub fn words(rt: &impl Abort, values: &[u32]) -> Words {
    let mut value = [0; 13];
    must(rt, values.len() <= 13);
    value[..values.len()].copy_from_slice(values);
    Words {
        count: values.len() as u8,
        value,
    }
}
