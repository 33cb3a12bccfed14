//! Parts of a text.
ghost use Rattle.std.specs.Prelude.{◌≡◌, ◌≤◌, bytes_eq, drop, length};
ghost use Rattle.gdb_requests.specs.Parts.{before, begins, behind, pair_said, span};

use gdb_packets::read_number;

/// Whether a text is a word.
pub fn is_word(text: &[u8], word: &[u8]) -> bool
    ensures { result ≡ bytes_eq text.now word.now }
{
    text == word
}

/// Whether a text begins with a word.
pub fn does_begin(text: &[u8], word: &[u8]) -> bool
    ensures { result ≡ begins word.now text.now }
{
    text.starts_with(word)
}

/// A text without its first bytes.
pub fn skip(text: &[u8], count: usize) -> &[u8]
    ensures { result.now ≡ drop count text.now }
{
    if count < text.len() {
        &text[count..]
    } else {
        &[]
    }
}

fn mark_place(text: &[u8], mark: u8) -> usize
    ensures place { result ≡ span mark text.now }
    ensures within { result ≤ length text.now }
{
    for (i, byte) in text.iter().enumerate() {
        if *byte == mark {
            return i;
        }
    }
    text.len()
}

/// What stands in front of a mark.
#[tactic(auto, unfolding(crate::specs::Parts::before))]
pub fn front(text: &[u8], mark: u8) -> &[u8]
    ensures { result.now ≡ before mark text.now }
{
    &text[..mark_place(text, mark)]
}

/// What stands behind a mark.
#[tactic(auto, unfolding(crate::specs::Parts::behind))]
pub fn back(text: &[u8], mark: u8) -> &[u8]
    ensures { result.now ≡ behind mark text.now }
{
    let place = mark_place(text, mark);
    if place < text.len() {
        skip(text, place + 1)
    } else {
        &[]
    }
}

/// Two numbers with a comma between them.
#[tactic(auto, unfolding(crate::specs::Parts::pair_said))]
pub fn read_pair(text: &[u8]) -> Option<(u32, u32)>
    ensures { result ≡ pair_said text.now }
{
    match (
        read_number(front(text, b',')),
        read_number(back(text, b',')),
    ) {
        (Some(first), Some(second)) => Some((first, second)),
        _ => None,
    }
}
