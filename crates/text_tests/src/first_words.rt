// All first words of the 68K, and their texts with words of zeros behind them.
use m68_isa::{Decoded68, decode68};
use m68_text::text68;
use mix_bits::Line;

/// The text of an instruction's words, and nothing where they are too few.
fn line_of(words: &[u16], at: u32) -> Line {
    let mut line = Line::new();
    match decode68(words) {
        Decoded68::Short => {}
        d => text68(&d, words, at, &mut line),
    }
    line
}

/// Adds a line to a checksum.
fn summed(sum: u32, line: &[u8]) -> u32 {
    let mut sum = sum;
    for byte in line {
        sum = sum.wrapping_mul(31).wrapping_add(u32::from(*byte));
    }
    sum.wrapping_mul(31).wrapping_add(u32::from(b'\n'))
}

// The number and the checksum were computed by a script that goes over the manual's table.
#[test]
fn every_first_word_has_a_line(rt: HostRuntime) {
    let mut instructions: u32 = 0;
    let mut sum: u32 = 0;
    for word in 0..0x1_0000u32 {
        let line = line_of(&[word as u16, 0, 0, 0, 0], 0x1_0000);
        if !line.bytes().starts_with(b"dc.w") {
            instructions = instructions.wrapping_add(1);
        }
        sum = summed(sum, line.bytes());
    }
    assert_eq!(rt; instructions, 45863);
    assert_eq!(rt; sum, 0x1257_62FE);
}

/// Whether a first word, with words of zeros behind it, has a row of its own.
fn is_in_a_row(word: u16) -> bool {
    match decode68(&[word, 0, 0, 0, 0]) {
        Decoded68::Op(_, _) => true,
        Decoded68::Privileged => true,
        _ => word == 0x4AFC,
    }
}

fn is_privileged(word: u16) -> bool {
    matches!(decode68(&[word]), Decoded68::Privileged)
}

// The numbers were counted apart from the crates of this repository.
#[test]
fn of_all_first_words_so_many_have_a_row(rt: HostRuntime) {
    let in_a_row = (0..=u16::MAX).filter(|w| is_in_a_row(*w)).count();
    let privileged = (0..=u16::MAX).filter(|w| is_privileged(*w)).count();
    assert_eq!(rt; in_a_row, 45939);
    assert_eq!(rt; privileged, 75);
}
