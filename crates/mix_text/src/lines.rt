// The lines of a text, and the parts of a line.
ghost use Rattle.std.specs.Prelude.{◌≡◌, ◌≤◌, length};
ghost use Rattle.mix_text.specs.Lines.{address_in as address_of, has_colon as has_colon_of, is_silent as is_silent_of};
ghost use Rattle.mix_text.specs.inner.Parts.{behind_line, first_line, line_length as line_length_of};

use mix_bits::read_hexadecimal;

/// The first line of a text, and what stands behind its line feed.
pub fn split_line(text: &[u8]) -> (&[u8], &[u8])
    ensures line { result.0.now ≡ first_line text.now }
    ensures rest { result.1.now ≡ behind_line text.now }
{
    let end = line_length(text);
    if end < text.len() {
        (&text[..end], &text[end + 1..])
    } else {
        (text, &[])
    }
}

/// How many bytes stand before the first line feed.
fn line_length(text: &[u8]) -> usize
    ensures value { result ≡ line_length_of text.now }
    ensures within { result ≤ length text.now }
{
    for (i, b) in text.iter().enumerate() {
        if *b == b'\n' {
            return i;
        }
    }
    text.len()
}

/// Whether a line gives nothing: it is empty, or begins with a semicolon.
pub fn is_silent(line: &[u8]) -> bool
    ensures { result ≡ is_silent_of line.now }
{
    if line.is_empty() {
        true
    } else {
        line[0] == b';'
    }
}

/// The address in front of a line: eight upper-case hexadecimal digits before a colon and a space.
pub fn address_in(line: &[u8]) -> Option<u32>
    ensures { result ≡ address_of line.now }
{
    if has_colon(line) {
        read_hexadecimal(&line[..8], 8)
    } else {
        None
    }
}

/// Whether a colon and a space stand behind eight bytes.
fn has_colon(line: &[u8]) -> bool
    ensures value { result ≡ has_colon_of line.now }
{
    line.len() >= 10 && line[8] == b':' && line[9] == b' '
}
