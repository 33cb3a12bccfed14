// Runs beside an outside that tells nothing: the adapters of std around an empty input and outputs that keep
// nothing, and no device.
use crate::case::Case;
use crate::images::Images;
use crate::run::{shelf, split};
use crate::words::no_memory;
use dev_rack::Rack;
use mix_io::{FileKeep, MemShelf, StdSink, StdSource};
use mix_top::mixed_main;
use std::io;

/// What a case gives there, as text: `NAME | STATUS`.
pub fn told(rt: &HostRuntime, images: &Images, case: Case) -> io::Result<String> {
    let alloc = rt.alloc();
    let words = split(alloc, case.words)?;
    let files = shelf(alloc, images, case)?;
    let rack = Rack::new(alloc, Vec::new(alloc)).map_err(no_memory)?;
    let (name, status) = (case.name, status(rt, &words, files, rack));
    Ok(format!(in alloc; "{name} | {status}")?)
}

/// The status that the program ends with.
fn status(rt: &HostRuntime, words: &[String], mut files: MemShelf, mut rack: Rack) -> u8 {
    mixed_main(
        rt.alloc(),
        words,
        &mut files,
        &mut StdSource::new(io::empty()),
        &mut StdSink::new(io::sink()),
        &mut StdSink::new(io::sink()),
        &mut rack,
        &mut FileKeep::new(rt),
    )
}
