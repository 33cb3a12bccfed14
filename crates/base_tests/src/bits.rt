use crate::checks::same;
use mix_bits::{Line, Size, digit, sext, trunc, with_digit, with_low};

/// A value, a size, and what comes of it.
type Sized = (u32, Size, u32);

const CUT: [Sized; 4] = [
    (0x1234_5678, Size::Zero, 0),
    (0x1234_5678, Size::One, 0x78),
    (0x1234_5678, Size::Two, 0x5678),
    (0x1234_5678, Size::Four, 0x1234_5678),
];

const EXTENDED: [Sized; 4] = [
    (0x7F, Size::One, 0x7F),
    (0x80, Size::One, 0xFFFF_FF80),
    (0x1_8000, Size::Two, 0xFFFF_8000),
    (0x8000_0000, Size::Four, 0x8000_0000),
];

#[test]
fn sizes_cut_and_extend(rt: HostRuntime) {
    for (v, size, wanted) in &CUT {
        same(&rt, trunc(*v, *size), *wanted);
    }
    for (v, size, wanted) in &EXTENDED {
        same(&rt, sext(*v, *size), *wanted);
    }
}

#[test]
fn digits_are_read_and_replaced(rt: HostRuntime) {
    same(&rt, digit(0x3B0, 4, 2), 3);
    same(&rt, digit(0xFFFF_FFFF, 31, 1), 1);
    same(&rt, with_digit(0x1234_5678, 8, 4, 0xF), 0x1234_5F78);
    same(
        &rt,
        with_low(0xAAAA_AAAA, 0x1234_5678, Size::Two),
        0xAAAA_5678,
    );
}

#[test]
fn a_line_is_its_pieces(rt: HostRuntime) {
    let mut line = Line::new();
    let fits = [
        line.text("fault "),
        line.hex(0x1A2B_3C4D, 8),
        line.text(" "),
        line.hex(0x1A2B_3C4D, 4),
        line.text(" "),
        line.hex(0x1A2B_3C4D, 2),
        line.text(" "),
        line.dec(4_294_967_295),
    ];
    same(&rt, fits, [true; 8]);
    let wanted = b"fault 1A2B3C4D 3C4D 4D 4294967295";
    same(&rt, line.bytes(), wanted.as_slice());
}

#[test]
fn a_full_line_stays_as_it_was(rt: HostRuntime) {
    let mut line = Line::new();
    for _ in 0..16 {
        same(&rt, line.text("0123456789"), true);
    }
    let fits = [line.text("x"), line.dec(7), line.hex(7, 2), line.text("")];
    same(&rt, fits, [false, false, false, true]);
    same(&rt, line.bytes().len(), 160);
}
