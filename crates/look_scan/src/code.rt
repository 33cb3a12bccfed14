// Traps in code.
ghost use Rattle.std.specs.Prelude.{◌≡◌, ◌+◌, ◌*◌, ◌/◌, ◌^◌, ◌<◌, ◌≤◌, ◌++◌, IfSome, OnOk, length};
ghost use Rattle.mix_bits.specs.Search.{least};
ghost use Rattle.look_scan.specs.Code.{is_lacking as is_lacking_at, is_lacking_word, is_trap as is_trap_word, trap_in, traps_below, traps_of};

use mix_bits::{NoMemory, word_at};
use toolbox::{trap_index, trap_laws};

/// Appends the traps at even places of code, in their order.
pub fn add_traps(traps: &mut Vec<u16>, code: &[u8]) -> Result<(), NoMemory>
    requires { length code.now ≤ 2 ^ 24 }
    ensures { OnOk result (traps.new.items ≡ traps.old.items ++ traps_of code.now) }
{
    add_first(traps, code, (code.len() / 2) as u32)
}

/// Appends those among the first words.
#[tactic(auto, using(std::proofs::Common::append_assoc))]
fn add_first(traps: &mut Vec<u16>, code: &[u8], count: u32) -> Result<(), NoMemory>
    requires inside { 2 * count ≤ length code.now }
    requires small { length code.now ≤ 2 ^ 24 }
    ensures { OnOk result (traps.new.items ≡ traps.old.items ++ traps_below code.now count) }
{
    for k in 0..count {
        add_trap(traps, word_at(code, 2 * k))?;
    }
    Ok(())
}

/// Appends a word, if it is a trap.
fn add_trap(traps: &mut Vec<u16>, word: u16) -> Result<(), NoMemory>
    ensures { OnOk result (traps.new.items ≡ traps.old.items ++ trap_in word) }
{
    if is_trap(word) {
        traps.push(word)?;
    }
    Ok(())
}

fn is_trap(word: u16) -> bool
    ensures { result ≡ is_trap_word word }
{
    word / 0x1000 == 0xA
}

/// The number of the first word that is a trap which the library lacks.
pub fn first_lacking(code: &[u8]) -> Option<u32>
    requires { length code.now ≤ 2 ^ 24 }
    ensures first { result ≡ least (is_lacking_at code.now) (length code.now / 2) }
    ensures inside { IfSome result (λ k. 2 * k + 2 ≤ length code.now) }
{
    first_among(code, (code.len() / 2) as u32)
}

/// The same among the first words.
#[tactic(auto, using(mix_bits::proofs::Searches::least_at))]
fn first_among(code: &[u8], count: u32) -> Option<u32>
    requires inside { 2 * count ≤ length code.now }
    requires small { length code.now ≤ 2 ^ 24 }
    ensures first { result ≡ least (is_lacking_at code.now) count }
    ensures inside { IfSome result (λ k. k < count) }
{
    for k in 0..count {
        if is_lacking(code, k) {
            return Some(k);
        }
    }
    None
}

fn is_lacking(code: &[u8], k: u32) -> bool
    requires inside { 2 * k + 2 ≤ length code.now }
    requires small { length code.now ≤ 2 ^ 24 }
    ensures { result ≡ is_lacking_at code.now k }
{
    let word = word_at(code, 2 * k);
    is_trap(word) && lacks(word)
}

/// Whether the library lacks a trap. $AAFE, with which a routine descriptor begins, is none of its traps, and calls the
/// routine.
pub fn lacks(word: u16) -> bool
    ensures { result ≡ is_lacking_word word }
{
    trap_laws();
    word != 0xAAFE && trap_index(word).is_none()
}
