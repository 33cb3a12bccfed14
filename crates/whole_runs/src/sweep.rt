// Many runs of one program, each with another number: an address in its input, a length or a place in its file,
// or the step at which it is cut.
use crate::case::Case;
use crate::cut;
use crate::images::{Images, number};
use crate::run::told;
use crate::tell::Telling;
use std::alloc::Global;
use std::io;

/// What the number is.
#[derive(Clone, Copy)]
enum Varied {
    /// The last four bytes of the input.
    Address,
    /// How many bytes of the last file are there.
    Length,
    /// The place of a byte of the last file that is 1 more.
    Place,
    /// The steps after which the run is cut, kept and continued.
    Cut,
}

/// Numbers from the first to the last, each so many above the one before.
#[derive(Clone, Copy)]
pub struct Sweep {
    varied: Varied,
    first: u32,
    last: u32,
    step: u32,
}

/// Numbers one after the other that end alike.
#[derive(Drop)]
struct Stretch {
    first: u32,
    last: u32,
    end: String,
}

impl Varied {
    /// What a word says.
    fn read(word: &str) -> Option<Varied> {
        match word {
            "sweep" => Some(Varied::Address),
            "lengths" => Some(Varied::Length),
            "places" => Some(Varied::Place),
            "cuts" => Some(Varied::Cut),
            _ => None,
        }
    }
}

impl Sweep {
    /// The sweep of a text such as `sweep=FIRST..LAST` or `cuts=FIRST..LAST/STEP`, all hexadecimal.
    pub fn read(text: &str) -> Option<Sweep> {
        let (word, range) = text.split_once('=')?;
        Sweep::over(Varied::read(word)?, range)
    }

    /// The sweep over a range `FIRST..LAST` or `FIRST..LAST/STEP`.
    fn over(varied: Varied, range: &str) -> Option<Sweep> {
        let (first, rest) = range.split_once("..")?;
        let (last, step) = rest.split_once('/').unwrap_or((rest, "1"));
        Some(Sweep {
            varied,
            first: number(first).ok()?,
            last: number(last).ok()?,
            step: number(step).ok()?,
        })
    }

    /// The answer: each stretch of numbers that end alike, with the status and the last line of the trace, or
    /// with what tells a cut run from the uncut one.
    pub fn answer(self, alloc: Global, images: &Images, case: Case) -> io::Result<String> {
        let case = Case {
            outside: "",
            ..case
        };
        let uncut = self.uncut(alloc, images, case)?;
        let stretches = self.stretches(alloc, images, case, uncut.as_str())?;
        listed(alloc, case.name, &stretches)
    }

    /// What the uncut run gives, where runs are cut.
    fn uncut(self, alloc: Global, images: &Images, case: Case) -> io::Result<String> {
        match self.varied {
            Varied::Cut => told(alloc, images, case, Telling::All),
            _ => Ok(String::new(alloc)),
        }
    }

    /// The stretches of numbers that end alike.
    fn stretches(
        self,
        alloc: Global,
        images: &Images,
        case: Case,
        uncut: &str,
    ) -> io::Result<Vec<Stretch>> {
        let mut stretches = Vec::new(alloc);
        let mut at = self.first;
        for _ in self.first..=self.last {
            if at <= self.last {
                let end = self.end_at(alloc, images, case, at, uncut)?;
                add(&mut stretches, at, end)?;
                at = at.saturating_add(self.step);
            }
        }
        Ok(stretches)
    }

    /// How the program ends at a number.
    fn end_at(
        self,
        alloc: Global,
        images: &Images,
        case: Case,
        at: u32,
        uncut: &str,
    ) -> io::Result<String> {
        match self.varied {
            Varied::Address => at_address(alloc, images, case, at),
            Varied::Length => with_change(alloc, images, case, '#', at),
            Varied::Place => with_change(alloc, images, case, '+', at),
            Varied::Cut => at_cut(alloc, images, case, at, uncut),
        }
    }
}

/// How the program ends with an address behind its input.
fn at_address(alloc: Global, images: &Images, case: Case, at: u32) -> io::Result<String> {
    let input = case.input;
    let input = format!(in alloc; "{input} {at:08X}")?;
    let input = input.as_str();
    told(alloc, images, Case { input, ..case }, Telling::End(at))
}

/// What tells the run that is cut after so many steps from the uncut one.
fn at_cut(alloc: Global, images: &Images, case: Case, at: u32, uncut: &str) -> io::Result<String> {
    let cut = Some(at);
    cut::told(alloc, images, Case { cut, ..case }, uncut)
}

/// Why the files are refused once the last one was changed, or that they are not.
fn with_change(
    alloc: Global,
    images: &Images,
    case: Case,
    mark: char,
    at: u32,
) -> io::Result<String> {
    let files = case.files;
    let files = format!(in alloc; "{files} {mark}{at:X}")?;
    let files = files.as_str();
    told(alloc, images, Case { files, ..case }, Telling::Refusal(at))
}

/// Adds a number, to the last stretch where it ends alike.
fn add(stretches: &mut Vec<Stretch>, at: u32, end: String) -> io::Result<()> {
    if let Some(stretch) = stretches.last_mut()
        && stretch.end.as_str() == end.as_str()
    {
        stretch.last = at;
        return Ok(());
    }
    stretches.push(Stretch {
        first: at,
        last: at,
        end,
    })?;
    Ok(())
}

/// The stretches as text.
fn listed(alloc: Global, name: &str, stretches: &[Stretch]) -> io::Result<String> {
    let mut text = String::from_str(alloc, name)?;
    for stretch in stretches {
        let (first, last, end) = (stretch.first, stretch.last, stretch.end.as_str());
        write!(text, " | {first:08X}..{last:08X} {end}")?;
    }
    Ok(text)
}
