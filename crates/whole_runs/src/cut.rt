// A run that is cut, kept and continued.
use crate::case::Case;
use crate::images::Images;
use crate::run;
use crate::tell::Telling;
use std::alloc::{AllocError, Global};
use std::io;

/// What a case gives that is cut, without the end line of the first part; or that it gives what the uncut one
/// gave.
pub fn told(alloc: Global, images: &Images, case: Case, uncut: &str) -> io::Result<String> {
    let text = run::told(alloc, images, case, Telling::Joined)?;
    Ok(compared(alloc, text.as_str(), uncut)?)
}

/// A text, if it is not the one of the uncut run.
fn compared(alloc: Global, text: &str, uncut: &str) -> Result<String, AllocError> {
    let is_same = text == uncut;
    String::from_str(alloc, if is_same { "as uncut" } else { text })
}
