ghost use Rattle.std.specs.Prelude.{◌≡◌, ◌+◌, ◌<◌, IfSome, is_none, is_some};
ghost use Rattle.job_words.specs.Drafts.{given as given_of, has_room as has_room_of, is_alone, index_of, job_by, job_of, made, main_in, has_program, nothing, number as number_of, place as place_of, set as set_of, steps_in, with_setting};
ghost use Rattle.job_words.specs.inner.Drafts.{settings_in};
ghost use Rattle.job_words.specs.Jobs.{main_file, usual_set};

use super::job::{Command, Job, Key};
use super::setting::{Name, Setting, Value, Verb};
use mix_bits::{File, Isa};

/// What a word gave for its key.
#[derive(Clone, Copy)]
pub struct Given {
    pub place: u32,
    pub value: Value,
}

/// What the words so far have given, each under the number of its key.
#[derive(Clone, Copy)]
pub struct Draft {
    pub slots: [Option<Given>; 15],
}

impl Draft {
    /// A draft in which nothing is given.
    pub fn new() -> Draft
        ensures { result ≡ nothing }
    {
        Draft { slots: [None; 15] }
    }

    /// The draft with one more setting, unless its key or one that it excludes is given already.
    pub fn with(mut self, place: u32, setting: Setting) -> Option<Draft>
        ensures value { result ≡ with_setting self place setting }
        ensures more { IfSome result (λ next. settings_in next ≡ 1 + settings_in self) }
    {
        if !has_room(&self, setting.name) {
            return None;
        }
        self.slots[index(setting.name)] = Some(Given {
            place,
            value: setting.value,
        });
        Some(self)
    }

    /// What is given for a key.
    fn given(&self, name: Name) -> Option<Given>
        ensures { result ≡ given_of self.now name }
    {
        self.slots[index(name)]
    }

    /// The place of the word that names a file for a key.
    fn place(&self, name: Name) -> Option<u32>
        ensures { result ≡ place_of self.now name }
    {
        match self.given(name) {
            Some(
                Given {
                    place,
                    value: Value::Named,
                },
            ) => Some(place),
            _ => None,
        }
    }

    /// The place of the word that names a file to fetch.
    fn file(&self, key: Key) -> Option<u32>
        ensures { result ≡ place_of self.now (Name.File key) }
    {
        self.place(Name::File(key))
    }

    /// The number that is given for a key.
    fn number(&self, name: Name) -> Option<u32>
        ensures { result ≡ number_of self.now name }
    {
        match self.given(name)?.value {
            Value::Number(n) => Some(n),
            _ => None,
        }
    }

    /// The instruction set that is given for a key.
    fn set(&self, name: Name) -> Option<Isa>
        ensures { result ≡ set_of self.now name }
    {
        match self.given(name)?.value {
            Value::Set(set) => Some(set),
            _ => None,
        }
    }
}

/// The number of a key.
fn index(name: Name) -> usize
    ensures value { result ≡ index_of name }
    ensures inside { result < 15 }
{
    match name {
        Name::File(Key::Program(File::Flat)) => 0,
        Name::File(Key::Program(File::Rsrc)) => 1,
        Name::File(Key::Program(File::Pef)) => 2,
        Name::Main => 3,
        Name::Ram => 4,
        Name::Steps => 5,
        Name::At => 6,
        Name::Count => 7,
        Name::Calls => 8,
        Name::Depth => 9,
        Name::File(Key::Text) => 10,
        Name::CodeSet => 11,
        Name::File(Key::Image) => 12,
        Name::File(Key::Script) => 13,
        Name::Save => 14,
    }
}

/// Whether neither a key is given nor one that it excludes.
fn has_room(draft: &Draft, name: Name) -> bool
    ensures { result ≡ has_room_of draft.now name }
{
    is_open(draft, name)
        && match name {
            Name::File(Key::Program(file)) => stands_alone(draft, file),
            _ => true,
        }
}

/// Whether no file is given that one of a program excludes: beside a flat file stands no other.
fn stands_alone(draft: &Draft, file: File) -> bool
    ensures { result ≡ is_alone draft.now (Name.File (Key.Program file)) }
{
    match file {
        File::Flat => is_missing(draft, File::Rsrc) && is_missing(draft, File::Pef),
        File::Rsrc => is_missing(draft, File::Flat),
        File::Pef => is_missing(draft, File::Flat),
    }
}

/// Whether a file of a program is not given.
fn is_missing(draft: &Draft, file: File) -> bool
    ensures { result ≡ is_none (given_of draft.now (Name.File (Key.Program file))) }
{
    is_open(draft, Name::File(Key::Program(file)))
}

/// Whether a key is not given.
fn is_open(draft: &Draft, name: Name) -> bool
    ensures { result ≡ is_none (given_of draft.now name) }
{
    draft.given(name).is_none()
}

/// The instruction set of the main program: as it is named, else that of the files.
fn main_set(draft: &Draft) -> Isa
    ensures { result ≡ main_in draft.now }
{
    match draft.set(Name::Main) {
        Some(set) => set,
        None => set_of_files(draft),
    }
}

/// The instruction set of the main program where none is named.
#[inline(always)]
fn set_of_files(draft: &Draft) -> Isa
    ensures { result ≡ usual_set (place_of draft.now (Name.File (Key.Program File.Flat))) (place_of draft.now (Name.File (Key.Program File.Rsrc))) }
{
    if draft.file(Key::Program(File::Flat)).is_some()
        || draft.file(Key::Program(File::Rsrc)).is_some()
    {
        Isa::M68
    } else {
        Isa::Ppc
    }
}

/// Whether the files of a job hold its main program.
fn has_main(job: Job) -> bool
    ensures { result ≡ has_program job }
{
    job.flat.is_some() || has_file(job.main, job.rsrc, job.pef)
}

/// Whether the file is there that has the main program of a set where no file is flat.
#[inline(always)]
fn has_file(main: Isa, rsrc: Option<u32>, pef: Option<u32>) -> bool
    ensures { result ≡ is_some (main_file main rsrc pef) }
{
    match main {
        Isa::M68 => rsrc.is_some(),
        Isa::Ppc => pef.is_some(),
    }
}

/// How many steps are done at most: as they are given, else a million.
fn steps(draft: &Draft) -> u32
    ensures { result ≡ steps_in draft.now }
{
    draft.number(Name::Steps).unwrap_or(1_000_000)
}

/// The job of a draft, unless its main program is missing.
fn job(draft: &Draft) -> Option<Job>
    ensures { result ≡ job_of draft.now }
{
    let job = whole_job(draft);
    if has_main(job) { Some(job) } else { None }
}

/// The job of a draft, with or without a main program.
#[inline(always)]
fn whole_job(draft: &Draft) -> Job
    ensures { result ≡ job_by draft.now }
{
    Job {
        flat: draft.file(Key::Program(File::Flat)),
        rsrc: draft.file(Key::Program(File::Rsrc)),
        pef: draft.file(Key::Program(File::Pef)),
        main: main_set(draft),
        kib: draft.number(Name::Ram).unwrap_or(1024),
        steps: steps(draft),
        save: draft.place(Name::Save),
    }
}

/// The command of a draft, unless something is missing.
pub fn make(verb: Verb, draft: &Draft) -> Option<Command>
    ensures { result ≡ made verb draft.now }
{
    match verb {
        Verb::ToRun => run(draft),
        Verb::ToList => list(draft),
        Verb::ToSample => sample(draft),
        Verb::ToAssemble => assemble(draft),
        Verb::ToContinue => continue_kept(draft),
        Verb::ToDebug => debug(draft),
    }
}

/// The command `run` of a draft.
#[inline(always)]
fn run(draft: &Draft) -> Option<Command>
    ensures { result ≡ made Verb.ToRun draft.now }
{
    Some(Command::Run(job(draft)?))
}

/// The command `list`.
#[inline(always)]
fn list(draft: &Draft) -> Option<Command>
    ensures { result ≡ made Verb.ToList draft.now }
{
    Some(Command::List(
        job(draft)?,
        draft.number(Name::At)?,
        draft.number(Name::Count)?,
    ))
}

/// The command `sample`.
#[inline(always)]
fn sample(draft: &Draft) -> Option<Command>
    ensures { result ≡ made Verb.ToSample draft.now }
{
    Some(Command::Sample(draft.number(Name::Calls)?, draft.number(Name::Depth)?))
}

/// The command `assemble`.
#[inline(always)]
fn assemble(draft: &Draft) -> Option<Command>
    ensures { result ≡ made Verb.ToAssemble draft.now }
{
    Some(Command::Assemble(
        draft.set(Name::CodeSet)?,
        draft.file(Key::Text)?,
        draft.number(Name::At)?,
    ))
}

/// The command `continue`.
#[inline(always)]
fn continue_kept(draft: &Draft) -> Option<Command>
    ensures { result ≡ made Verb.ToContinue draft.now }
{
    Some(Command::Continue(
        draft.file(Key::Image)?,
        steps(draft),
        draft.place(Name::Save),
    ))
}

/// The command `debug`.
#[inline(always)]
fn debug(draft: &Draft) -> Option<Command>
    ensures { result ≡ made Verb.ToDebug draft.now }
{
    Some(Command::Debug(job(draft)?, draft.file(Key::Script)?))
}
