// A shelf of files in memory.
ghost use Rattle.std.specs.Prelude.{◌≡◌, ◌≤◌, ℕ, List, Option, None, Some, IfOk, MatchOption, false, IsTrue, length, map, vec_len, vec_items, string_bytes, bytes_eq};
ghost use Rattle.std.specs.List.{list_any};
ghost use Rattle.mix_io.specs.NumberedCalls.{calls_from_one};
ghost use Rattle.mix_io.specs.FetchCauses.{ExcessCause, FetchCause, has_failed, is_too_long};
ghost use Rattle.mix_io.specs.Takes.{Fetches};
ghost use Rattle.mix_io.specs.Memory.{MemoryShelf, file_named, file_of, faults_of};
ghost use Rattle.mix_io.specs.InMemory.{are_distinct, lacks, exceeds, after_fetch};

use super::counts::{Calls, count_fault};
use super::errors::FetchError;
use super::traits::Shelf;
use std::alloc::Global;
use std::marker::Model;

/// Holds files by name, and tells them. A name that it lacks fails.
#[derive(Drop)]
pub struct MemShelf {
    names: Vec<String>,
    contents: Vec<Vec<u8>>,
    calls: Calls,
    known_faults: u64,
    other_faults: u64,
    excesses: u64,
}

impl Model for MemShelf {
    ghost Value = { MemoryShelf };

    ghost view = { λ s. record {
      names = map string_bytes s.names.items;
      files = map vec_items s.contents.items;
      calls = s.calls;
      known_faults = s.known_faults;
      other_faults = s.other_faults;
      excesses = s.excesses;
    } };
}

/// Whether no name stands twice, as `MemShelf::new` asks.
pub fn have_distinct_names(names: &[String]) -> bool
    ensures { result ≡ are_distinct (map string_bytes names.now) }
{
    match names {
        [] => true,
        [first, others @ ..] => !has_name(others, first.as_str()) && have_distinct_names(others),
    }
}

fn has_name(names: &[String], name: &str) -> bool
    ensures { result ≡ list_any (bytes_eq name.now) (map string_bytes names.now) }
{
    match names {
        [] => false,
        [first, others @ ..] => name == first.as_str() || has_name(others, name),
    }
}

/// The file beside the name.
fn find<'a>(names: &[String], contents: &'a [Vec<u8>], name: &str) -> Option<&'a [u8]>
    ensures { MatchOption result
        (file_named (map string_bytes names.now) (map vec_items contents.now) name.now ≡ None)
        (λ file. file_named (map string_bytes names.now) (map vec_items contents.now) name.now ≡ Some file.now) }
{
    let [first, other_names @ ..] = names else {
        return None;
    };
    let [file, other_contents @ ..] = contents else {
        return None;
    };
    if first.as_str() == name {
        return Some(file);
    }
    find(other_names, other_contents, name)
}

impl MemShelf {
    /// The file at each place has the name at that place. `fails` has the numbers, from 1, of the calls
    /// that fail. It keeps one count of faults for the names that it has, and one for all others, and one
    /// of files that were too long.
    pub fn new(names: Vec<String>, contents: Vec<Vec<u8>>, fails: Vec<u32>) -> MemShelf
        requires paired { vec_len names ≡ vec_len contents }
        requires distinct { IsTrue (are_distinct (map string_bytes names.items)) }
        ensures made { result ≡ record {
          names = map string_bytes names.items;
          files = map vec_items contents.items;
          calls = calls_from_one fails.items;
          known_faults = 0;
          other_faults = 0;
          excesses = 0;
        } }
        ensures contents { ⟦<MemShelf as Shelf>⟧.contents result ≡ Some (file_named (map string_bytes names.items) (map vec_items contents.items)) }
        ensures faults { (name : List ℕ) → ⟦<MemShelf as Shelf>⟧.faults result name ≡ 0 }
        ensures excesses { (name : List ℕ) → ⟦<MemShelf as Shelf>⟧.excesses result name ≡ 0 }
    {
        MemShelf {
            names,
            contents,
            calls: Calls::new(fails),
            known_faults: 0,
            other_faults: 0,
            excesses: 0,
        }
    }
}

impl Shelf for MemShelf {
    ghost contents = { λ s. Some (file_of s) };

    ghost faults = { faults_of };

    ghost excesses = { λ s _. s.excesses };

    fn fetch(&mut self, alloc: Global, name: &str, limit: u32) -> Result<Vec<u8>, FetchError>
        ensures within { IfOk result (λ v. length v.items ≤ limit) }
        ensures contents { Some (file_of self.new) ≡ Some (file_of self.old) }
        ensures answer { Fetches (Some (file_of self.old)) name.now limit result }
        ensures cause { FetchCause (faults_of self.old) (faults_of self.new) name.now result }
        ensures excess { ExcessCause (λ _. self.old.excesses) (λ _. self.new.excesses) name.now result }
        ensures exact { has_failed result ≡ lacks self.old name.now }
        ensures long { is_too_long result ≡ exceeds self.old name.now limit }
        ensures after { self.new ≡ after_fetch self.old name.now limit }
    {
        let failing = self.calls.is_failing();
        let Some(file) = find(&self.names, &self.contents, name) else {
            self.other_faults = count_fault(self.other_faults);
            return Err(FetchError::Failed);
        };
        if failing {
            self.known_faults = count_fault(self.known_faults);
            return Err(FetchError::Failed);
        }
        if file.len() > limit as usize {
            self.excesses = count_fault(self.excesses);
            return Err(FetchError::TooLong(limit));
        }
        Vec::from_slice(alloc, file).map_err(|_| FetchError::NoMemory)
    }
}
