// Where 68K code and PowerPC code have the values of a call.
ghost use Rattle.std.specs.Prelude.{◌≡◌, ◌++◌, OnOk, decimal};
ghost use Rattle.look_text.specs.Places.{flag_text as text_of_flag, place_text, ppc_place};

use super::pieces::{add, add_dec};
use args_m68::{Flag, Place};
use mix_bits::NoMemory;

/// Appends a place in 68K code.
pub fn add_place(text: &mut Vec<u8>, place: Place) -> Result<(), NoMemory>
    ensures { OnOk result (text.new.items ≡ text.old.items ++ place_text place) }
{
    match place {
        Place::Stack(from) => add_numbered(text, "A7+", from),
        Place::Data(n) => add_numbered(text, "D", u32::from(n)),
        Place::Address(n) => add_numbered(text, "A", u32::from(n)),
        Place::Condition(flag) => add(text, flag_text(flag)),
    }
}

/// The words for a condition bit.
fn flag_text(flag: Flag) -> &'static str
    ensures { result.now ≡ text_of_flag flag }
{
    match flag {
        Flag::Carry => "condition bit C",
        Flag::Overflow => "condition bit V",
        Flag::IsZero => "condition bit Z",
        Flag::Negative => "condition bit N",
        Flag::Extend => "condition bit X",
    }
}

/// Appends the place of a word of a PowerPC call, counted from 0.
#[tactic(auto, unfolding(crate::specs::Places::ppc_place))]
pub fn add_ppc_word(text: &mut Vec<u8>, word: u8) -> Result<(), NoMemory>
    ensures { OnOk result (text.new.items ≡ text.old.items ++ ppc_place word) }
{
    let word = u32::from(word);
    if word < 8 {
        add_numbered(text, "r", 3 + word)
    } else {
        add_numbered(text, "r1+", 24 + 4 * word)
    }
}

#[tactic(auto, using(std::proofs::Common::append_assoc))]
fn add_numbered(text: &mut Vec<u8>, name: &str, n: u32) -> Result<(), NoMemory>
    ensures { OnOk result (text.new.items ≡ text.old.items ++ (name.now ++ decimal n)) }
{
    add(text, name)?;
    add_dec(text, n)
}
