// Arguments and results in 68K code.
use crate::arguments::{LO, SELECTOR, VALUES, memory, signature, words};
use crate::equal::{equal, must};
use args_m68::{below68, deliver68, gather68, popped, put_result68, removed68, result68, select68};
use big_memory::{Access, Ram};
use m68_isa::{Ccr, Regs68};
use mix_bits::Size;
use proc_info::Sig;
use std::process::Abort;

/// These arguments cut to their sizes.
const CUT: [u32; 3] = [0xFF, 0x6677, 0x8899_AABB];

/// Gives a callee its stack below `LO` in memory full of ones, and answers its registers.
fn delivered(
    rt: &impl Abort,
    sig: &Sig,
    values: &[u32],
    selector: Option<u32>,
    ram: &mut Ram,
) -> Regs68 {
    must(rt, ram.len() == 0x2_0000);
    ram.fix(LO - 80, &[0xEE; 96]);
    let args = words(rt, values);
    must(rt, args.count == sig.count);
    must(rt, below68(sig, selector.is_some()) <= LO);
    must(rt, ram.len() == 0x2_0000);
    must(rt, selector.is_none() || sig.conv.is_dispatched());
    deliver68(sig, &args, selector, LO, 0xA5A5, 0x1_2344, ram)
}

/// These bytes stand at an address.
fn stands_at(rt: &impl Abort, ram: &Ram, at: u32, bytes: &[u8]) {
    must(rt, bytes.len() <= 64);
    equal(rt, at, ram.span(at, bytes.len() as u32), Ok(bytes));
}

/// The bytes from A7 up to the end of a callee's stack are these, and none beside them has changed.
fn stands(rt: &impl Abort, ram: &Ram, sp: u32, bytes: &[u8]) {
    must(rt, bytes.len() <= 64);
    let from = LO - bytes.len() as u32;
    equal(rt, "A7", sp, from);
    stands_at(rt, ram, from, bytes);
    stands_at(rt, ram, from - 16, &[0xEE; 16]);
    stands_at(rt, ram, LO, &[0xEE; 16]);
}

/// A callee's registers, but for A7: these data registers and address registers, A5 and pc.
fn holds(rt: &impl Abort, regs: &Regs68, d: [u32; 8], a: [u32; 5]) {
    let wanted = Regs68 {
        d,
        a: [a[0], a[1], a[2], a[3], a[4], 0xA5A5, 0, regs.a[7]],
        pc: 0x1_2344,
        ccr: Ccr::from_bits(0),
    };
    equal(rt, "the registers", *regs, wanted);
}

/// What was delivered is gathered as the values cut to their sizes.
fn comes_back(rt: &impl Abort, sig: &Sig, regs: &Regs68, ram: &Ram, wanted: &[u32]) {
    let words = gather68(sig, regs, ram).ok().expect(rt, "no arguments");
    must(rt, words.count <= 13);
    equal(
        rt,
        "the arguments",
        &words.value[..words.count as usize],
        wanted,
    );
}

/// What a callee of the three arguments finds: the data registers, the first address registers, and its stack.
#[derive(Clone, Copy)]
struct Found<'a> {
    d: [u32; 8],
    a: [u32; 5],
    stack: &'a [u8],
}

/// The arguments as Pascal's, behind a return address.
const PASCAL: &[u8] = b"\x00\x00\x10\x08\x88\x99\xAA\xBB\x66\x77\xFF\x00\x00\x00";

/// Zeros in the registers, and the arguments as Pascal's.
static ON_THE_STACK: Found<'static> = Found {
    d: [0; 8],
    a: [0; 5],
    stack: PASCAL,
};

/// The same with a selector in D0, in D1, and above the return address.
static IN_D0: Found<'static> = Found {
    d: [0x1234, 0, 0, 0, 0, 0, 0, 0],
    a: [0; 5],
    stack: PASCAL,
};

static IN_D1: Found<'static> = Found {
    d: [0, 0x1234, 0, 0, 0, 0, 0, 0],
    a: [0; 5],
    stack: PASCAL,
};

static ABOVE_THE_ADDRESS: Found<'static> = Found {
    d: [0; 8],
    a: [0; 5],
    stack: b"\x00\x00\x10\x08\x12\x34\x88\x99\xAA\xBB\x66\x77\xFF\x00\x00\x00",
};

/// The three arguments are delivered so, and come back.
fn finds(
    rt: &impl Abort,
    ram: &mut Ram,
    sig: &Sig,
    selector: Option<u32>,
    wanted: &Found,
) -> Regs68 {
    let regs = delivered(rt, sig, &VALUES, selector, ram);
    stands(rt, ram, regs.a[7], wanted.stack);
    holds(rt, &regs, wanted.d, wanted.a);
    comes_back(rt, sig, &regs, ram, &CUT);
    regs
}

/// The arguments are delivered to Pascal code, which removes them.
fn finds_pascal(rt: &impl Abort, ram: &mut Ram) {
    let sig = signature(rt, 0xE60);
    let _ = finds(rt, ram, &sig, None, &ON_THE_STACK);
    equal(rt, "removed", removed68(&sig, false), 12);
}

#[test]
fn pascal_parameters_stand_last_first_with_bytes_in_front_of_their_words(rt: HostRuntime) {
    finds_pascal(&rt, &mut memory(&rt, rt.alloc()));
}

/// The arguments are delivered to C code, with this word in D0.
fn finds_longs(rt: &impl Abort, ram: &mut Ram, info: u32, selector: Option<u32>, d0: u32) {
    let sig = signature(rt, info);
    let wanted = Found {
        d: [d0, 0, 0, 0, 0, 0, 0, 0],
        a: [0; 5],
        stack: b"\x00\x00\x10\x08\x00\x00\x00\xFF\x00\x00\x66\x77\x88\x99\xAA\xBB",
    };
    let _ = finds(rt, ram, &sig, selector, &wanted);
    equal(rt, info, popped(&sig), 4);
}

#[test]
fn c_values_are_the_last_bytes_of_longs(rt: HostRuntime) {
    let mut ram = memory(&rt, rt.alloc());
    finds_longs(&rt, &mut ram, 0xE61, None, 0);
    finds_longs(&rt, &mut ram, 0x39A9, Some(SELECTOR), 0x1234);
}

/// The arguments in D1, A0 and A3.
static IN_REGISTERS: Found<'static> = Found {
    d: [0, 0xFF, 0, 0, 0, 0, 0, 0],
    a: [0x6677, 0, 0, 0x8899_AABB, 0],
    stack: b"\x00\x00\x10\x08",
};

/// The arguments are delivered in registers.
fn finds_registers(rt: &impl Abort, ram: &mut Ram) {
    let sig = signature(rt, 0x03F2_2A22);
    let _ = finds(rt, ram, &sig, None, &IN_REGISTERS);
    equal(rt, "popped", popped(&sig), 4);
}

#[test]
fn register_arguments_are_the_low_bytes_of_their_registers(rt: HostRuntime) {
    finds_registers(&rt, &mut memory(&rt, rt.alloc()));
}

/// The arguments and the selector are delivered so, and the selector comes back too.
fn finds_selector(rt: &impl Abort, ram: &mut Ram, info: u32, wanted: &Found, removed: u32) {
    let sig = signature(rt, info);
    let regs = finds(rt, ram, &sig, Some(SELECTOR), wanted);
    must(rt, sig.conv.is_dispatched());
    equal(rt, "the selector", select68(&sig, &regs, ram), Ok(0x1234));
    equal(rt, "popped", popped(&sig), removed);
}

#[test]
fn a_selector_is_in_d0_or_d1_or_above_the_return_address(rt: HostRuntime) {
    let mut ram = memory(&rt, rt.alloc());
    finds_selector(&rt, &mut ram, 0x39A8, &IN_D0, 12);
    finds_selector(&rt, &mut ram, 0x39AC, &IN_D1, 12);
    finds_selector(&rt, &mut ram, 0x39AE, &ABOVE_THE_ADDRESS, 14);
}

/// How many bytes a callee finds below the end of its stack, without a selector and with one, and how many it
/// removes, and how many of a caller's come off.
fn sizes(sig: &Sig) -> (u32, u32, u32, u32) {
    (
        below68(sig, false),
        below68(sig, true),
        removed68(sig, false),
        popped(sig),
    )
}

/// The arguments are delivered to dispatched code without a selector.
fn finds_no_selector(rt: &impl Abort, ram: &mut Ram) {
    let sig = signature(rt, 0x39AE);
    let regs = delivered(rt, &sig, &VALUES, None, ram);
    stands(rt, ram, regs.a[7], PASCAL);
    equal(rt, "the sizes", sizes(&sig), (14, 16, 12, 14));
}

#[test]
fn a_selector_that_is_not_passed_counts_for_the_caller_alone(rt: HostRuntime) {
    finds_no_selector(&rt, &mut memory(&rt, rt.alloc()));
}

/// Thirteen arguments.
const THIRTEEN: [u32; 13] = [1, 2, 3, 4, 5, 6, 7, 8, 9, 10, 11, 12, 0xFFFF_FFFF];

/// They are delivered, and come back.
fn thirteen_come_back(rt: &impl Abort, ram: &mut Ram, info: u32) {
    let sig = signature(rt, info);
    let regs = delivered(rt, &sig, &THIRTEEN, None, ram);
    equal(rt, "A7", regs.a[7], LO - 56);
    comes_back(rt, &sig, &regs, ram, &THIRTEEN);
}

#[test]
fn thirteen_parameters_come_back(rt: HostRuntime) {
    equal(&rt, "popped", popped(&signature(&rt, 0xFFFF_FFC0)), 56);
    let mut ram = memory(&rt, rt.alloc());
    thirteen_come_back(&rt, &mut ram, 0xFFFF_FFC0);
    thirteen_come_back(&rt, &mut ram, 0xFFFF_FFC1);
}

#[test]
fn sizes_of_a_pascal_call(rt: HostRuntime) {
    let sig = signature(&rt, 0x3B0);
    equal(&rt, "popped", popped(&sig), 10);
    equal(&rt, "below", below68(&sig, false), 14);
}

/// Registers that are full, with A7 in the stack.
fn caller() -> Regs68 {
    let mut a = [0x7777_7777; 8];
    a[7] = 0x1_F000;
    Regs68 {
        d: [0x7777_7777; 8],
        a,
        pc: 0x1_0000,
        ccr: Ccr::from_bits(0),
    }
}

/// The caller's registers with a word of a result in the register with this code.
fn caller_with_word(place: u32) -> Regs68 {
    let mut regs = caller();
    regs.a[7] = 0x1_F004;
    match place {
        0..=3 => regs.d[place as usize] = 0x7777_1234,
        4..=7 => regs.a[place as usize - 4] = 0x7777_1234,
        8..=11 => regs.d[place as usize - 4] = 0x7777_1234,
        12..=15 => regs.a[place as usize - 8] = 0x7777_1234,
        _ => {}
    }
    regs
}

/// The register with this code takes a word of a result.
fn takes_word(rt: &impl Abort, ram: &mut Ram, place: u32) {
    must(rt, place < 32);
    let sig = signature(rt, 0x22 + 64 * place);
    let mut regs = caller();
    let put = put_result68(&sig, 0xABCD_1234, &mut regs, ram);
    equal(rt, place, put, Ok(()));
    equal(rt, place, regs, caller_with_word(place));
    equal(rt, place, result68(&sig, &regs, ram), Ok(0x1234));
}

#[test]
fn each_register_place_takes_the_low_bytes_of_a_result(rt: HostRuntime) {
    let mut ram = memory(&rt, rt.alloc());
    for place in 0..15u32 {
        takes_word(&rt, &mut ram, place);
    }
}

/// A result of one byte is in the condition bit with this place, which is set or not; all others are set before
/// and after.
fn is_in_bit(rt: &impl Abort, ram: &mut Ram, place: u32, bit: u32, value: u32, set: bool) {
    must(rt, place < 32);
    must(rt, bit < 32);
    let sig = signature(rt, 0x12 + 64 * place);
    let mut regs = caller();
    regs.ccr = Ccr::from_bits(31 - bit);
    let put = put_result68(&sig, value, &mut regs, ram);
    equal(rt, place, put, Ok(()));
    let wanted = if set { 31 } else { 31 - bit };
    equal(rt, place, regs.ccr.bits(), wanted);
    equal(rt, place, result68(&sig, &regs, ram), Ok(u32::from(set)));
}

/// It is clear for a 0 in the low byte, and else set.
fn tells_zero(rt: &impl Abort, ram: &mut Ram, place: u32, bit: u32) {
    is_in_bit(rt, ram, place, bit, 0x100, false);
    is_in_bit(rt, ram, place, bit, 0x101, true);
    is_in_bit(rt, ram, place, bit, 0x80, true);
}

#[test]
fn a_condition_bit_tells_whether_the_cut_result_is_0(rt: HostRuntime) {
    let mut ram = memory(&rt, rt.alloc());
    tells_zero(&rt, &mut ram, 16, 1);
    tells_zero(&rt, &mut ram, 17, 2);
    tells_zero(&rt, &mut ram, 18, 4);
    tells_zero(&rt, &mut ram, 19, 8);
    tells_zero(&rt, &mut ram, 20, 16);
}

/// The caller's registers with A7 at an address.
fn caller_at(sp: u32) -> Regs68 {
    let mut regs = caller();
    regs.a[7] = sp;
    regs
}

/// A result of four bytes is stored above A7 at this address.
fn is_stored(rt: &impl Abort, ram: &mut Ram, sig: &Sig, sp: u32) {
    must(rt, sp < 0x2_0000);
    let mut regs = caller_at(sp);
    let put = put_result68(sig, 0xABCD_1234, &mut regs, ram);
    equal(rt, sp, put, Ok(()));
    equal(rt, sp, regs.a[7], sp + 4);
    equal(rt, sp, ram.load(sp + 4, Size::Four), Ok(0xABCD_1234));
    equal(rt, sp, result68(sig, &regs, ram), Ok(0xABCD_1234));
}

/// With A7 at this address it is refused so, and the registers are as before.
fn is_refused(rt: &impl Abort, ram: &mut Ram, sig: &Sig, sp: u32, access: Access) {
    let mut regs = caller_at(sp);
    let put = put_result68(sig, 0xABCD_1234, &mut regs, ram);
    equal(rt, sp, put, Err(access));
    equal(rt, sp, regs, caller_at(sp));
}

/// Guards one unit of the stack.
fn guard(rt: &impl Abort, ram: &mut Ram) {
    must(rt, ram.len() == 0x2_0000);
    must(rt, ram.floor() == 0x1_8000);
    ram.guard(0x1_9000, 0x1_9010);
}

/// Results are stored beside the ends of memory, the gate page and the guarded unit, or are refused.
fn stores_results(rt: &impl Abort, ram: &mut Ram) {
    let sig = signature(rt, 0x30);
    is_stored(rt, ram, &sig, 0x1_FFF8);
    is_refused(rt, ram, &sig, 0x1_FFFA, Access::Outside(0x1_FFFE));
    is_refused(rt, ram, &sig, 0xFFE, Access::Gate(0x1002));
    is_refused(rt, ram, &sig, 0x1_8FFA, Access::Frame(0x1_8FFE));
    is_stored(rt, ram, &sig, 0x1_8FF8);
    let loaded = result68(&sig, &caller_at(0x1_FFFE), ram);
    equal(rt, "outside", loaded, Err(Access::Outside(0x1_FFFE)));
}

#[test]
fn a_pascal_result_is_stored_as_a_store_is(rt: HostRuntime) {
    let mut ram = memory(&rt, rt.alloc());
    guard(&rt, &mut ram);
    stores_results(&rt, &mut ram);
}
