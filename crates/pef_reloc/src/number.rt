// The numbers of pattern data.
ghost use Rattle.std.specs.Prelude.{◌≡◌, ◌≤◌, length, IfSome};
ghost use Rattle.std.specs.Option.{option_map};
ghost use Rattle.pef_reloc.specs.Pattern.{count_in, with_rest};
ghost use Rattle.pef_reloc.specs.inner.Pattern.{number_in};

/// The number at the front, and the bytes behind it.
#[tactic(auto, using(crate::proofs::Numbers::number_after_large))]
pub fn read_number(from: &[u8]) -> Option<(u32, &[u8])>
    ensures is { option_map (λ read. with_rest read.0 read.1.now) result ≡ number_in from.now }
    ensures less { IfSome result (λ read. length read.1.now ≤ length from.now) }
{
    let mut rest = from;
    let mut value: u64 = 0;
    while let [group, tail @ ..] = rest {
        value = value * 128 + u64::from(*group % 128);
        if value > u64::from(u32::MAX) {
            return None;
        }
        if *group < 128 {
            return Some((value as u32, tail));
        }
        rest = tail;
    }
    None
}

/// The count of an instruction that begins with `byte`, and the bytes behind it.
pub fn read_count(byte: u8, rest: &[u8]) -> Option<(u32, &[u8])>
    ensures is { option_map (λ read. with_rest read.0 read.1.now) result ≡ count_in byte rest.now }
    ensures less { IfSome result (λ read. length read.1.now ≤ length rest.now) }
{
    if byte % 32 == 0 {
        read_number(rest)
    } else {
        Some((u32::from(byte % 32), rest))
    }
}
