// Rows of words with the command that they give, or the place of the first bad one, from the description of the program.
use crate::checks::same;
use job_words::{BadWord, Command, Job, read_words};
use mix_bits::Isa;
use std::alloc::Global;
use std::process::Abort;

/// The words of a command line, and what they are read as.
type Row = (&'static [&'static str], Result<Command, BadWord>);

/// A flat file at place 1, with all else as it is where no word says otherwise.
const PLAIN: Job = Job {
    flat: Some(1),
    rsrc: None,
    pef: None,
    main: Isa::M68,
    kib: 1024,
    steps: 1_000_000,
    save: None,
};

/// A fork and a container, a million steps, and a name to keep the machine by.
const MIXED: Job = Job {
    flat: None,
    rsrc: Some(3),
    pef: Some(1),
    main: Isa::Ppc,
    kib: 128,
    steps: 1_000_000,
    save: Some(5),
};

const REFUSED: [Row; 5] = [
    (&[], Err(BadWord { place: 0 })),
    (&["run"], Err(BadWord { place: 1 })),
    (&["run", "flat=a", "ram=64"], Err(BadWord { place: 2 })),
    (&["run", "flat=a", "flat=a"], Err(BadWord { place: 2 })),
    (&["walk", "flat="], Err(BadWord { place: 0 })),
];

const READ: [Row; 6] = [
    (&["run", "flat=a"], Ok(Command::Run(PLAIN))),
    (
        &["run", "pef=p", "main=ppc", "rsrc=r", "ram=128", "save=s"],
        Ok(Command::Run(MIXED)),
    ),
    (
        &["list", "flat=a", "count=2", "at=00010000"],
        Ok(Command::List(PLAIN, 0x1_0000, 2)),
    ),
    (&["sample", "depth=256", "n=1"], Ok(Command::Sample(1, 256))),
    (
        &["continue", "save=t", "image=s"],
        Ok(Command::Continue(2, 1_000_000, Some(1))),
    ),
    (
        &["debug", "flat=a", "script=s=1"],
        Ok(Command::Debug(PLAIN, 2)),
    ),
];

/// Each row is read as it says.
fn check_rows(rt: &impl Abort, alloc: Global, rows: &[Row]) {
    for (texts, wanted) in rows {
        let words = words(rt, alloc, texts);
        same(rt, read_words(&words), *wanted);
    }
}

/// These words as texts of their own.
fn words(rt: &impl Abort, alloc: Global, texts: &[&str]) -> Vec<String> {
    let mut words = Vec::new(alloc);
    for text in texts {
        let word = String::from_str(alloc, text).expect(rt, "no word");
        words.push(word).expect(rt, "no room for a word");
    }
    words
}

#[test]
fn a_bad_word_is_told_by_its_place(rt: HostRuntime) {
    check_rows(&rt, rt.alloc(), &REFUSED);
}

#[test]
fn words_are_commands(rt: HostRuntime) {
    check_rows(&rt, rt.alloc(), &READ);
}
