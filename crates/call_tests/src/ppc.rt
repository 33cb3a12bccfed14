// Arguments and results in PowerPC code.
use crate::arguments::{LO, SELECTOR, VALUES, memory, signature, words};
use crate::equal::{equal, must};
use args_m68::Words;
use args_ppc::{
    PpcWords, below_ppc, deliver_ppc, gather_ppc, put_result_ppc, result_ppc, select_ppc,
};
use big_memory::{Access, Ram};
use mix_bits::Size;
use ppc_isa::RegsPpc;
use proc_info::Sig;
use std::process::Abort;

/// Gives a callee its stack below `LO` in memory full of ones, and answers its registers.
fn delivered(
    rt: &impl Abort,
    sig: &Sig,
    values: &[u32],
    selector: Option<u32>,
    ram: &mut Ram,
) -> RegsPpc {
    must(rt, ram.len() == 0x2_0000);
    ram.fix(LO - 96, &[0xEE; 112]);
    let Words { count, value } = words(rt, values);
    let args = PpcWords { count, value };
    must(rt, args.count == sig.count);
    must(rt, below_ppc(sig, selector.is_some()) <= LO);
    must(rt, ram.len() == 0x2_0000);
    must(rt, selector.is_none() || sig.conv.is_dispatched());
    deliver_ppc(sig, &args, selector, LO, 0x1_2344, 0x1_5678, ram)
}

/// A callee's registers, with its stack pointer and these words from r3 on, and else zeros.
fn holds(rt: &impl Abort, regs: RegsPpc, sp: u32, words: [u32; 8]) {
    let mut wanted = RegsPpc::cleared();
    wanted.gpr[1] = sp;
    wanted.gpr[2] = 0x1_5678;
    wanted.gpr[3..11].copy_from_slice(&words);
    wanted.lr = 0x1018;
    wanted.pc = 0x1_2344;
    equal(rt, "the registers", regs, wanted);
}

/// These bytes stand at an address.
fn stands_at(rt: &impl Abort, ram: &Ram, at: u32, bytes: &[u8]) {
    must(rt, bytes.len() <= 64);
    equal(rt, at, ram.span(at, bytes.len() as u32), Ok(bytes));
}

/// The three arguments are delivered as words behind one another, with this selector before them.
fn finds(rt: &impl Abort, ram: &mut Ram, info: u32, selector: Option<u32>) {
    let sig = signature(rt, info);
    let regs = delivered(rt, &sig, &VALUES, selector, ram);
    let words = match selector {
        Some(_) => [0x1234, 0xFF, 0x6677, 0x8899_AABB, 0, 0, 0, 0],
        None => [0xFF, 0x6677, 0x8899_AABB, 0, 0, 0, 0, 0],
    };
    holds(rt, regs, LO - 64, words);
}

/// They are delivered without a selector, above a frame of zeros, and no other byte has changed.
fn finds_words(rt: &impl Abort, ram: &mut Ram, info: u32) {
    finds(rt, ram, info, None);
    stands_at(rt, ram, LO - 64, &[0; 64]);
    stands_at(rt, ram, LO - 80, &[0xEE; 16]);
    stands_at(rt, ram, LO, &[0xEE; 16]);
}

/// Words alone, and words behind a selector.
fn finds_all(rt: &impl Abort, ram: &mut Ram) {
    for info in [0xE60, 0xE61, 0x03F2_2A22] {
        finds_words(rt, ram, info);
    }
    for info in [0x39A8, 0x39A9, 0x39AC, 0x39AE] {
        finds(rt, ram, info, Some(SELECTOR));
        finds(rt, ram, info, None);
    }
}

#[test]
fn words_are_cut_and_a_selector_comes_first(rt: HostRuntime) {
    finds_all(&rt, &mut memory(&rt, rt.alloc()));
}

/// Thirteen arguments.
const THIRTEEN: [u32; 13] = [1, 2, 3, 4, 5, 6, 7, 8, 9, 10, 11, 12, 0xFFFF_FFFF];

/// Those of them that stand in the frame.
const BEHIND: &[u8] =
    b"\x00\x00\x00\x09\x00\x00\x00\x0A\x00\x00\x00\x0B\x00\x00\x00\x0C\xFF\xFF\xFF\xFF";

/// Thirteen arguments are delivered in eight registers and a frame.
fn finds_thirteen(rt: &impl Abort, ram: &mut Ram) {
    let sig = signature(rt, 0xFFFF_FFC0);
    let regs = delivered(rt, &sig, &THIRTEEN, None, ram);
    holds(rt, regs, LO - 80, [1, 2, 3, 4, 5, 6, 7, 8]);
    stands_at(rt, ram, LO - 80, &[0; 56]);
    stands_at(rt, ram, LO - 24, BEHIND);
    stands_at(rt, ram, LO - 4, &[0; 4]);
    stands_at(rt, ram, LO - 96, &[0xEE; 16]);
}

#[test]
fn words_behind_the_eighth_stand_in_the_frame(rt: HostRuntime) {
    finds_thirteen(&rt, &mut memory(&rt, rt.alloc()));
}

/// The registers of a caller with its stack at an address, and 100 to 107 from r3 on.
fn caller(sp: u32) -> RegsPpc {
    let mut regs = RegsPpc::cleared();
    regs.gpr[1] = sp;
    regs.gpr[3..11].copy_from_slice(&[100, 101, 102, 103, 104, 105, 106, 107]);
    regs
}

/// A caller passes so many words by a procInfo, and these are the first of them.
fn passes(rt: &impl Abort, ram: &Ram, sig: &Sig, count: u8, wanted: &[u32]) {
    let regs = caller(0x1_F000);
    let words = gather_ppc(sig, &regs, ram).ok().expect(rt, "no arguments");
    equal(rt, "how many words", words.count, count);
    must(rt, wanted.len() <= 13);
    equal(rt, "the words", &words.value[..wanted.len()], wanted);
}

/// A caller passes this selector.
fn selects(rt: &impl Abort, sig: &Sig, wanted: u32) {
    must(rt, sig.conv.is_dispatched());
    equal(
        rt,
        "the selector",
        select_ppc(sig, &caller(0x1_F000)),
        wanted,
    );
}

/// Thirteen bytes, of which all but six are in the frame.
const BYTES: [u32; 13] = [102, 103, 104, 105, 106, 107, 0xAA, 0, 0, 0, 0, 0, 0];

/// Callers pass thirteen bytes, and three words behind a selector; and one has its stack at the end of memory.
fn callers_pass(rt: &impl Abort, ram: &mut Ram) {
    let stored = ram.store(0x1_F038, Size::Four, 0x1AA);
    equal(rt, "the store", stored, Ok(()));
    let bytes = signature(rt, 0x5555_5570);
    passes(rt, ram, &bytes, 13, &BYTES);
    let sig = signature(rt, 0x39AE);
    selects(rt, &sig, 102);
    passes(rt, ram, &sig, 3, &[103, 104, 105, 0]);
    let refused = gather_ppc(&bytes, &caller(0x1_FFC8), ram).err();
    equal(rt, "outside", refused, Some(Access::Outside(0x2_0000)));
}

#[test]
fn callers_words_begin_behind_the_pointer_and_the_procinfo(rt: HostRuntime) {
    callers_pass(&rt, &mut memory(&rt, rt.alloc()));
}

/// By this procInfo a result is found so in r3, and put there so.
fn is_cut(rt: &impl Abort, info: u32, found: u32, put: u32) {
    let sig = signature(rt, info);
    let mut regs = RegsPpc::cleared();
    regs.gpr[3] = 0x7777_7777;
    equal(rt, info, result_ppc(&sig, &regs), found);
    put_result_ppc(&sig, 0xABCD_1234, &mut regs);
    equal(rt, info, regs.gpr[3], put);
    equal(rt, info, regs.gpr[4], 0);
}

#[test]
fn results_are_cut_in_r3(rt: HostRuntime) {
    is_cut(&rt, 0x01, 0, 0x7777_7777);
    is_cut(&rt, 0x11, 0x77, 0x34);
    is_cut(&rt, 0x21, 0x7777, 0x1234);
    is_cut(&rt, 0x31, 0x7777_7777, 0xABCD_1234);
}
