// What a command line can ask for.
ghost use Rattle.std.specs.Prelude.{◌≡◌, ◌≤◌, length};
ghost use Rattle.job_words.specs.Jobs.{limit_of, place_in, place_of, save_in};
ghost use Rattle.job_words.specs.Settings.{key_text as key_text_of};

use mix_bits::{File, IMAGE_BYTES, Isa, MOST_BYTES};

/// What the words ask for.
#[derive(Clone, Copy, Debug, PartialEq, Eq)]
pub enum Command {
    /// Loads a program and runs it.
    Run(Job),
    /// Loads a program and lists its instructions: from which address, and how many at most.
    List(Job, u32, u32),
    /// Runs the sample program: how many calls it makes, and how deep each goes.
    Sample(u32, u32),
    /// Assembles the lines of a text: in which instruction set, the place of the word that names the text, and the
    /// address of the first line.
    Assemble(Isa, u32, u32),
    /// Runs a machine that was kept: the place of the word that names its image, how many steps are done at most, and
    /// the place of the word that names what is kept at the step limit.
    Continue(u32, u32, Option<u32>),
    /// Loads a program and does the lines of a script with it: the place of the word that names the script.
    Debug(Job, u32),
}

impl Command {
    /// The place of the word that names the file of a key, if the command wants that file.
    pub fn place(&self, key: Key) -> Option<u32>
        ensures { result ≡ place_in self.now key }
    {
        match self {
            Command::Run(job) => job.place(key),
            Command::List(job, _, _) => job.place(key),
            Command::Sample(_, _) => None,
            Command::Assemble(_, text, _) => match key {
                Key::Text => Some(*text),
                _ => None,
            },
            Command::Continue(image, _, _) => match key {
                Key::Image => Some(*image),
                _ => None,
            },
            Command::Debug(job, script) => match key {
                Key::Script => Some(*script),
                _ => job.place(key),
            },
        }
    }

    /// The place of the word that names what is kept at the step limit, if the command keeps anything.
    pub fn save(&self) -> Option<u32>
        ensures { result ≡ save_in self.now }
    {
        match self {
            Command::Run(job) => job.save,
            Command::Continue(_, _, save) => *save,
            _ => None,
        }
    }
}

/// A program to load: its files, each as the place of the word that names it, and how to run it.
#[derive(Clone, Copy, Debug, PartialEq, Eq)]
pub struct Job {
    pub flat: Option<u32>,
    pub rsrc: Option<u32>,
    pub pef: Option<u32>,
    /// The instruction set of the main program.
    pub main: Isa,
    /// The size of RAM in KiB.
    pub kib: u32,
    /// How many steps are done at most.
    pub steps: u32,
    /// The place of the word that names what is kept at the step limit.
    pub save: Option<u32>,
}

impl Job {
    /// The place of the word that names the file of a key, if that is a file of a program.
    fn place(&self, key: Key) -> Option<u32>
        ensures { result ≡ place_of self.now key }
    {
        match key {
            Key::Program(File::Flat) => self.flat,
            Key::Program(File::Rsrc) => self.rsrc,
            Key::Program(File::Pef) => self.pef,
            _ => None,
        }
    }
}

/// A file that a command can want.
#[derive(Clone, Copy, Debug, PartialEq, Eq)]
pub enum Key {
    /// One of a program.
    Program(File),
    /// A machine that was kept.
    Image,
    /// A text of lines to assemble.
    Text,
    /// A script of lines for the debugger.
    Script,
}

impl Key {
    /// All keys, in the order in which the files of a command are fetched.
    pub const ALL: [Key; 6] = [
        Key::Program(File::Flat),
        Key::Program(File::Rsrc),
        Key::Program(File::Pef),
        Key::Image,
        Key::Text,
        Key::Script,
    ];

    /// The word's text before the equals sign.
    pub fn text(self) -> &'static str
        ensures text { result.now ≡ key_text_of self }
        ensures short { length result.now ≤ 6 }
    {
        match self {
            Key::Program(File::Flat) => "flat",
            Key::Program(File::Rsrc) => "rsrc",
            Key::Program(File::Pef) => "pef",
            Key::Image => "image",
            Key::Text => "text",
            Key::Script => "script",
        }
    }

    /// How many bytes the file has at most.
    pub fn limit(self) -> u32
        ensures { result ≡ limit_of self }
    {
        match self {
            Key::Image => IMAGE_BYTES,
            _ => MOST_BYTES,
        }
    }
}

/// The place of the first bad word, counted from 0; it is the number of words where one is missing.
#[derive(Clone, Copy, Debug, PartialEq, Eq)]
pub struct BadWord {
    pub place: u32,
}
