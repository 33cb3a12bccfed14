// Files with some of their bytes changed.
use crate::equal::must;
use std::process::Abort;

/// A place, and the bytes that are put there.
pub type Change = (usize, &'static [u8]);

/// A file with these bytes changed, and behind its end zeros.
pub fn changed(rt: &impl Abort, file: &[u8], changes: &[Change]) -> [u8; 272] {
    must(rt, file.len() <= 272);
    let mut all = [0; 272];
    all[..file.len()].copy_from_slice(file);
    for (place, bytes) in changes {
        must(rt, *place <= 272 && bytes.len() <= 272 - *place);
        all[*place..*place + bytes.len()].copy_from_slice(bytes);
    }
    all
}
