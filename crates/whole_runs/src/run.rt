// One run over objects in memory.
use crate::case::Case;
use crate::images::Images;
use crate::outside::{keeper, scripted, sink};
use crate::tell::{self, Telling};
use crate::words::{no_memory, numbers, value_of};
use dev_rack::{Asked, Devices, Rack};
use mix_io::{Counter, Device, MemKeep, MemShelf, MemSink, MemSource, Tape, have_distinct_names};
use mix_top::mixed_main;
use std::alloc::{AllocError, Global};
use std::io::{self, ErrorKind};

/// The status of a run that did all its steps.
const LIMIT: u8 = 11;

/// What stands around a run, and what it gave.
#[derive(Drop)]
pub struct Run {
    pub status: u8,
    /// Whether it was cut, kept and continued.
    pub is_continued: bool,
    pub input: MemSource,
    pub out: MemSink,
    pub trace: MemSink,
    pub keep: MemKeep,
    pub asks: Vec<Asked>,
}

/// Runs a case, and tells of it.
pub fn told(alloc: Global, images: &Images, case: Case, telling: Telling) -> io::Result<String> {
    let files = shelf(alloc, images, case)?;
    let input = images.spell(alloc, case.input)?;
    let mut run = Run::new(alloc, case.outside, input)?;
    run.told(alloc, images, case, files, telling)
}

impl Run {
    /// What stands around a run with this input.
    fn new(alloc: Global, outside: &str, input: Vec<u8>) -> io::Result<Run> {
        let fails = numbers(alloc, outside, "in")?;
        let out = sink(alloc, outside, "out", "out-room")?;
        let trace = sink(alloc, outside, "trace", "trace-room")?;
        let keep = keeper(alloc, outside)?;
        Ok(Run {
            status: 0,
            is_continued: false,
            input: MemSource::new(input, fails),
            out,
            trace,
            keep,
            asks: Vec::new(alloc),
        })
    }

    /// Runs a case over files, and tells of it.
    fn told(
        &mut self,
        alloc: Global,
        images: &Images,
        case: Case,
        mut files: MemShelf,
        telling: Telling,
    ) -> io::Result<String> {
        self.beside_devices(alloc, case, &mut files)?;
        tell::told(alloc, images, case.name, self, telling)
    }

    /// Runs a case beside its devices: a counter or a script in slot 0, and a tape in slot 1.
    fn beside_devices(
        &mut self,
        alloc: Global,
        case: Case,
        files: &mut MemShelf,
    ) -> io::Result<()> {
        let tape: Box<dyn Device> = Box::new(alloc, Tape::new(alloc).map_err(no_memory)?)?;
        let device: Box<dyn Device> = match value_of(case.outside, "script") {
            Some(answers) => Box::new(alloc, scripted(alloc, answers)?)?,
            None => Box::new(alloc, Counter::new(alloc).map_err(no_memory)?)?,
        };
        let mut rack = Rack::new(alloc, vec![in alloc; device, tape]?).map_err(no_memory)?;
        self.beside(alloc, case, files, &mut rack)
    }

    /// Runs a case beside devices.
    fn beside<D: Devices>(
        &mut self,
        alloc: Global,
        case: Case,
        files: &mut MemShelf,
        rack: &mut D,
    ) -> io::Result<()> {
        match case.cut {
            Some(steps) => self.in_two_parts(alloc, case.words, steps, files, rack)?,
            None => self.over(alloc, case.words, files, rack)?,
        }
        self.asks = rack.journal().to_vec(alloc)?;
        Ok(())
    }

    /// Runs the words of a text for so many steps, and then what was kept.
    fn in_two_parts<D: Devices>(
        &mut self,
        alloc: Global,
        words: &str,
        steps: u32,
        files: &mut MemShelf,
        rack: &mut D,
    ) -> io::Result<()> {
        let first = format!(in alloc; "{words} steps={steps} save=s")?;
        self.over(alloc, first.as_str(), files, rack)?;
        if self.status == LIMIT {
            self.is_continued = true;
            let mut kept = shelf_with(alloc, self.keep.kept())?;
            return self.over(alloc, "continue image=s", &mut kept, rack);
        }
        Ok(())
    }

    /// Runs the words of a text over files.
    fn over<D: Devices>(
        &mut self,
        alloc: Global,
        words: &str,
        files: &mut MemShelf,
        rack: &mut D,
    ) -> io::Result<()> {
        let words = split(alloc, words)?;
        self.call(alloc, &words, files, rack);
        Ok(())
    }

    /// Runs words over files.
    fn call<D: Devices>(
        &mut self,
        alloc: Global,
        words: &[String],
        files: &mut MemShelf,
        rack: &mut D,
    ) {
        self.status = mixed_main(
            alloc,
            words,
            files,
            &mut self.input,
            &mut self.out,
            &mut self.trace,
            rack,
            &mut self.keep,
        );
    }
}

/// The words of a text.
pub fn split(alloc: Global, text: &str) -> Result<Vec<String>, AllocError> {
    let mut all = Vec::new(alloc);
    for word in text.split_whitespace() {
        all.push(String::from_str(alloc, word)?)?;
    }
    Ok(all)
}

/// A shelf with the files of a case.
pub fn shelf(alloc: Global, images: &Images, case: Case) -> io::Result<MemShelf> {
    let mut names = Vec::new(alloc);
    let mut contents = Vec::new(alloc);
    for file in case.files.split(';') {
        if let Some((name, pieces)) = file.split_once(':') {
            names.push(String::from_str(alloc, name.trim())?)?;
            contents.push(images.spell(alloc, pieces)?)?;
        }
    }
    shelf_of(names, contents, numbers(alloc, case.outside, "shelf")?)
}

/// A shelf with one file, whose name is `s`.
fn shelf_with(alloc: Global, bytes: &[u8]) -> io::Result<MemShelf> {
    let names = vec![in alloc; String::from_str(alloc, "s")?]?;
    let contents = vec![in alloc; bytes.to_vec(alloc)?]?;
    shelf_of(names, contents, Vec::new(alloc))
}

/// A shelf with these files, if no name stands twice.
fn shelf_of(names: Vec<String>, contents: Vec<Vec<u8>>, fails: Vec<u32>) -> io::Result<MemShelf> {
    if names.len() == contents.len() && have_distinct_names(&names) {
        Ok(MemShelf::new(names, contents, fails))
    } else {
        Err(ErrorKind::InvalidData.into())
    }
}
