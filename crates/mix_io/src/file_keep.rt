// A keeper over a file of the system.
ghost use Rattle.std.specs.Prelude.{◌≡◌, ℕ, List, None, IfSome, IsSomeAnd, is_err};
ghost use Rattle.mix_io.specs.CountsClauses.{NamedCause};
ghost use Rattle.mix_io.specs.KeptClauses.{Saves};
ghost use Rattle.mix_io.specs.Told.{Puts};

use super::counts::count_fault;
use super::errors::Failed;
use super::traits::Keeper;
use super::write::write_whole;
use std::fs;
use std::rt::Files;

/// Creates the file at its first piece, under the name of that piece, and writes every later piece
/// behind it. It tells nothing, and keeps one count of faults for all names together.
#[derive(Drop)]
pub struct FileKeep<'a, R: Files> {
    rt: &'a R,
    file: Option<R::File>,
    faults: u64,
}

impl<'a, R: Files> FileKeep<'a, R> {
    /// A keeper among the files that the system has, with no file and no fault yet. It takes no memory.
    pub fn new(rt: &'a R) -> FileKeep<'a, R>
        ensures { (name : List ℕ) → ⟦<FileKeep<'a, R> as Keeper>⟧.faults result name ≡ 0 }
    {
        FileKeep {
            rt,
            file: None,
            faults: 0,
        }
    }
}

impl<R: Files> Keeper for FileKeep<'_, R> {
    ghost kept = { λ _. None };

    ghost faults = { λ s _. s.faults };

    fn keep(&mut self, name: &str, piece: &[u8]) -> Result<(), Failed>
        ensures bytes { Saves None None name.now piece.now result }
        ensures cause { NamedCause (λ _. self.old.faults) (λ _. self.new.faults) name.now (is_err result) }
        // A file that is there stays, and what it tells to hold, if it does, grows by what is kept.
        ensures behind { IfSome self.old.file (λ before. IsSomeAnd self.new.file (λ after. Puts (R.File.contents before) (R.File.contents after) piece.now result)) }
    {
        if self.file.is_none() {
            let Ok(file) = fs::create(self.rt, name) else {
                self.faults = count_fault(self.faults);
                return Err(Failed);
            };
            self.file = Some(file);
        }
        match &mut self.file {
            Some(file) => write_whole(file, &mut self.faults, piece),
            None => unreachable!(),
        }
    }
}
