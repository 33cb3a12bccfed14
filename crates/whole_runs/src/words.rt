// The words `KEY=VALUE` of a case. Numbers are decimal.
use mix_io::NoMemory;
use std::alloc::Global;
use std::io::{self, ErrorKind};

/// The value of a key in a text of words, the last one where several have it, or nothing.
pub fn value_of<'a>(text: &'a str, key: &str) -> Option<&'a str> {
    let mut found = None;
    for word in text.split_whitespace() {
        let value = value_in(word, key);
        if value.is_some() {
            found = value;
        }
    }
    found
}

/// The value in a word that has this key.
fn value_in<'a>(word: &'a str, key: &str) -> Option<&'a str> {
    word.strip_prefix(key)?.strip_prefix('=')
}

/// The numbers that a key has, with commas between; none where no word has it.
pub fn numbers(alloc: Global, text: &str, key: &str) -> io::Result<Vec<u32>> {
    let mut all = Vec::new(alloc);
    if let Some(value) = value_of(text, key) {
        for word in value.split(',') {
            all.push(number(word)?)?;
        }
    }
    Ok(all)
}

/// The number that a key has, or this one.
pub fn number_or(text: &str, key: &str, other: u32) -> io::Result<u32> {
    match value_of(text, key) {
        Some(value) => number(value),
        None => Ok(other),
    }
}

fn number(text: &str) -> io::Result<u32> {
    match text.parse::<u32>() {
        Ok(number) => Ok(number),
        Err(_) => Err(ErrorKind::InvalidData.into()),
    }
}

/// Want of memory as an error of a program.
pub fn no_memory(_: NoMemory) -> io::Error {
    ErrorKind::OutOfMemory.into()
}
