// What a program asks of its system before it begins.
use std::rt::{Env, Files};
use std::{env, fs, io};

/// The words after the program's name, or an error where one of them is no text or there was no memory.
pub fn words<R: Env + AllocGlobal>(rt: &R) -> io::Result<Vec<String>> {
    let mut args = env::args(rt)?;
    let _name = args.next();
    Ok(args.collect(rt.alloc())?)
}

/// Opens the root folder, which can be neither read nor written as a file, once for each standard stream. Held, it
/// takes the numbers of streams that are closed, so that no file that is opened later becomes one of them.
pub fn hold_streams<R: Files>(rt: &R) -> [Option<R::File>; 3] {
    [hold(rt), hold(rt), hold(rt)]
}

fn hold<R: Files>(rt: &R) -> Option<R::File> {
    fs::open(rt, "/").ok()
}
