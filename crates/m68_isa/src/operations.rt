// The operation of a first word, read from a constant.
ghost use Rattle.std.specs.Prelude.{◌≡◌, ◌<◌, ◌^◌, length};
ghost use Rattle.m68_isa.specs.Operations.{operation};
ghost use Rattle.m68_isa.specs.First.{first_of};
ghost use Rattle.m68_isa.specs.laws.Fits.{Fits};
ghost use Rattle.m68_isa.specs.inner.Letters.{letters, lettered};

use super::lettered::LETTERED;
use super::letters::LETTERS;
use super::op::Op68;
use super::read::op_of;

/// The operation of a first word, as `op_of` finds it, by two looks into constants.
#[inline(always)]
#[tactic(auto, using(crate::proofs::ByLetter::found))]
pub fn op_of_word(word: u32) -> Op68
    requires { word < 2 ^ 16 }
    ensures value { result ≡ operation (first_of word) }
    ensures fits { Fits result word }
{
    fits_law(word);
    let letter = all_letters()[word as usize];
    all_lettered()[letter as usize]
}

/// The letters of all first words.
#[inline(always)]
fn all_letters() -> &'static [u8]
    ensures is { result.now ≡ letters }
    ensures all { length result.now ≡ 65536 }
{
    LETTERS
}

/// The operations of all letters.
#[inline(always)]
fn all_lettered() -> &'static [Op68]
    ensures is { result.now ≡ lettered }
    ensures all { length result.now ≡ 256 }
{
    &LETTERED
}

/// That the row of an operation has what the operation asks of the word. The clause is its point.
#[inline(always)]
fn fits_law(word: u32)
    ensures { Fits (operation (first_of word)) word }
{
    let _op = op_of(word);
}
