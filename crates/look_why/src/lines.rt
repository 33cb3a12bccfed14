// Lines of a text by their numbers.
ghost use Rattle.std.specs.Prelude.{◌≡◌, ◌≤◌, length};
ghost use Rattle.mix_top.specs.ScriptLines.{behind_line, first_line, line_length as line_length_of};
ghost use Rattle.look_why.specs.Lines.{nth_line as nth_line_of, without_feed as without_feed_of};

/// The line with a number, counted from 1, and its line feed; nothing where there is none.
pub fn nth_line(text: &[u8], number: u32) -> &[u8]
    ensures is { result.now ≡ nth_line_of number text.now }
    ensures within { length result.now ≤ length text.now }
{
    let mut rest = text;
    let mut left = number;
    'lines: while left > 1 {
        let (_, behind) = split_line(rest);
        rest = behind;
        left -= 1;
    }
    let (line, _) = split_line(rest);
    line
}

/// The first line of a text with its line feed, and what stands behind it.
pub fn split_line(text: &[u8]) -> (&[u8], &[u8])
    ensures line { result.0.now ≡ first_line text.now }
    ensures rest { result.1.now ≡ behind_line text.now }
    ensures line_within { length result.0.now ≤ length text.now }
    ensures rest_within { length result.1.now ≤ length text.now }
{
    let end = line_length(text);
    (&text[..end], &text[end..])
}

/// How many bytes the first line has; all, where there is no line feed.
fn line_length(text: &[u8]) -> usize
    ensures value { result ≡ line_length_of text.now }
    ensures within { result ≤ length text.now }
{
    for (i, b) in text.iter().enumerate() {
        if *b == b'\n' {
            return i + 1;
        }
    }
    text.len()
}

/// A line without its line feed.
pub fn without_feed(line: &[u8]) -> &[u8]
    ensures is { result.now ≡ without_feed_of line.now }
    ensures within { length result.now ≤ length line.now }
{
    if line.ends_with(b"\n") {
        &line[..line.len() - 1]
    } else {
        line
    }
}
