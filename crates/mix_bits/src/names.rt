ghost use Rattle.std.specs.Prelude.{◌≡◌, ◌≤◌, length};
ghost use Rattle.mix_bits.specs.Names.{name_length as name_length_of, name_of};
ghost use Rattle.mix_bits.specs.laws.Names.{rest_of};

/// A line's name, and what follows on the space behind it.
pub fn split_name(line: &[u8]) -> (&[u8], &[u8])
    ensures name { result.0.now ≡ name_of line.now }
    ensures rest { result.1.now ≡ rest_of line.now }
{
    let end = name_length(line);
    if end < line.len() {
        (&line[..end], &line[end + 1..])
    } else {
        (line, &[])
    }
}

/// How many bytes stand before the first space.
fn name_length(line: &[u8]) -> usize
    ensures value { result ≡ name_length_of line.now }
    ensures within { result ≤ length line.now }
{
    for (i, b) in line.iter().enumerate() {
        if *b == b' ' {
            return i;
        }
    }
    line.len()
}
