// The text of a BinHex file, and the numbers of its symbols.
ghost use Rattle.std.specs.Prelude.{◌≡◌, ◌==◌, ◌+◌, ◌-◌, ◌^◌, ◌<◌, ◌≤◌, IfOk, IfSome, length};
ghost use Rattle.std.specs.List.{position};
ghost use Rattle.mix_bits.specs.Search.{least};
ghost use Rattle.binhex.specs.OutcomeClauses.{Says};
ghost use Rattle.binhex.specs.Text.{is_foreign as is_foreign_byte, is_line_end as ends_line, is_marked, is_opening, known_text as text_known, opened_text, symbol_of, symbols_of as numbers_of, text_behind as behind_mark, text_of as text_in};

use crate::error::BinHexError;
use std::alloc::{AllocError, Global};

/// What the line begins with that stands before the text.
const MARK: &[u8; 28] = b"(This file must be converted";

/// The symbols by their numbers.
const ALPHABET: &[u8; 64] = b"!\"#$%&'()*+,-012345689@ABCDEFGHIJKLMNPQRSTUVXYZ[`abcdefhijklmpqr";

/// The text between the colons of a BinHex file, which has symbols and what parts lines.
pub fn text_of(bytes: &[u8]) -> Result<&[u8], BinHexError>
    requires { length bytes.now < 2 ^ 32 }
    ensures { Says (λ text. text.now) result (text_in bytes.now) }
{
    match find_mark(bytes, bytes.len().saturating_sub(27)) {
        Some(mark) => text_behind(&bytes[mark + 28..], mark + 28),
        None => Err(BinHexError::Unmarked),
    }
}

/// The first place at which the mark stands, among so many.
#[tactic(auto, using(mix_bits::proofs::Searches::least_at))]
fn find_mark(bytes: &[u8], count: usize) -> Option<usize>
    requires { count ≤ length bytes.now - 27 }
    ensures first { result ≡ least (is_marked bytes.now) count }
    ensures inside { IfSome result (λ k. k < count) }
{
    for k in 0..count {
        if has_mark(bytes, k) {
            return Some(k);
        }
    }
    None
}

fn has_mark(bytes: &[u8], k: usize) -> bool
    requires { k + 28 ≤ length bytes.now }
    ensures { result ≡ is_marked bytes.now k }
{
    let piece = &bytes[k..k + 28];
    piece == MARK.as_slice()
}

/// The text in what stands behind the mark, from a place of the file on.
fn text_behind(rest: &[u8], place: usize) -> Result<&[u8], BinHexError>
    requires { place + length rest.now < 2 ^ 32 }
    ensures { Says (λ text. text.now) result (behind_mark rest.now place) }
{
    match find_opening(rest, rest.len().saturating_sub(1)) {
        Some(k) => opened(&rest[k + 2..], place + (k + 2)),
        None => Err(BinHexError::Unopened),
    }
}

/// The end of the first line with a line behind it that begins with a colon, among so many places.
#[tactic(auto, using(mix_bits::proofs::Searches::least_at))]
fn find_opening(rest: &[u8], count: usize) -> Option<usize>
    requires { count ≤ length rest.now - 1 }
    ensures first { result ≡ least (is_opening rest.now) count }
    ensures inside { IfSome result (λ k. k < count) }
{
    for k in 0..count {
        if opens(rest, k) {
            return Some(k);
        }
    }
    None
}

fn opens(rest: &[u8], k: usize) -> bool
    requires { k + 1 < length rest.now }
    ensures { result ≡ is_opening rest.now k }
{
    is_line_end(rest[k]) && rest[k + 1] == b':'
}

fn is_line_end(byte: u8) -> bool
    ensures { result ≡ ends_line byte }
{
    byte == b'\r' || byte == b'\n'
}

/// The text up to the next colon.
fn opened(text: &[u8], place: usize) -> Result<&[u8], BinHexError>
    requires { place + length text.now < 2 ^ 32 }
    ensures { Says (λ text. text.now) result (opened_text text.now place) }
{
    match find_colon(text) {
        Some(end) => known(&text[..end], place),
        None => Err(BinHexError::Unended),
    }
}

fn find_colon(text: &[u8]) -> Option<usize>
    ensures first { result ≡ position (λ byte. byte == 58) text.now }
    ensures inside { IfSome result (λ k. k < length text.now) }
{
    text.iter().position(|byte| *byte == b':')
}

/// The text, where it has nothing foreign.
fn known(text: &[u8], place: usize) -> Result<&[u8], BinHexError>
    requires { place + length text.now < 2 ^ 32 }
    ensures { Says (λ text. text.now) result (text_known text.now place) }
{
    match find_foreign(text) {
        Some(k) => Err(BinHexError::Foreign((place + k) as u32)),
        None => Ok(text),
    }
}

fn find_foreign(text: &[u8]) -> Option<usize>
    ensures first { result ≡ position is_foreign_byte text.now }
    ensures inside { IfSome result (λ k. k < length text.now) }
{
    text.iter().position(|byte| is_foreign(*byte))
}

/// Whether a byte is neither a symbol nor a space, a tab or the end of a line.
fn is_foreign(byte: u8) -> bool
    ensures { result ≡ is_foreign_byte byte }
{
    number(byte).is_none() && byte != b' ' && byte != b'\t' && !is_line_end(byte)
}

/// The number of a symbol.
fn number(byte: u8) -> Option<usize>
    ensures number { result ≡ symbol_of byte }
    ensures small { IfSome result (λ n. n < 64) }
{
    ALPHABET.iter().position(|symbol| *symbol == byte)
}

/// The numbers of the symbols in a text.
pub fn numbers(alloc: Global, text: &[u8]) -> Result<Vec<u8>, AllocError>
    ensures { IfOk result (λ numbers. numbers.items ≡ numbers_of text.now) }
{
    let mut numbers = Vec::with_capacity(alloc, text.len())?;
    for byte in text {
        if let Some(n) = number(*byte) {
            numbers.push(n as u8)?;
        }
    }
    Ok(numbers)
}
