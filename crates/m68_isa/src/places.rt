ghost use Rattle.std.specs.Prelude.{◌≡◌, ◌/◌, ◌%◌, ◌^◌, ◌==◌, ◌&&◌, ◌||◌, IsTrue, not, nat_lt};
ghost use Rattle.m68_isa.specs.First.{first_of, size_of};
ghost use Rattle.m68_isa.specs.Classes.{in_class, is_source};
ghost use Rattle.m68_isa.specs.laws.Fits.{IsBitChangeable, IsChangeable, IsDestination};
ghost use Rattle.m68_isa.specs.Immediates.{bit_class, is_immediate};
ghost use Rattle.m68_isa.specs.Moves.{move_mode};
ghost use Rattle.m68_isa.specs.Classes.Class.{Any, Data, Alterable, DataAlterable, MemoryAlterable, Control, ControlAlterable};

use super::fields::{bit8_of, mode_of, move_mode_of, size_bits_of, upper_of};
use mix_bits::Size;

/// Whether bits 7 and 6 are a size, and not 11.
#[inline(always)]
pub fn is_sized(word: u32) -> bool
    ensures size { result ≡ nat_lt (first_of word).size 3 }
    ensures other { ((first_of word).size == 3) ≡ not result }
{
    size_bits_of(word) < 3
}

/// Whether bit 8 is set.
#[inline(always)]
pub fn is_odd(word: u32) -> bool
    ensures one { ((first_of word).bit8 == 1) ≡ result }
    ensures zero { ((first_of word).bit8 == 0) ≡ not result }
{
    bit8_of(word) == 1
}

/// Whether the low six bits of a word, a mode and a register, are one of the places that a class has a bit for.
#[inline(always)]
fn is_one_of(places: u64, word: u32) -> bool
    ensures { result ≡ (places / 2 ^ (word % 64) % 2 == 1) }
{
    (places >> (word % 64)) % 2 == 1
}

// The classes of modes, with a bit for each place: a byte for each mode, the lowest one for mode 0, with a bit
// for each register; mode 7 has its registers 0 to 4
// (M68000 Family Programmer's Reference Manual, section 2.3).

#[inline(always)]
#[tactic(auto, using(crate::proofs::ClassBits::any_places))]
pub fn is_any(word: u32) -> bool
    ensures { result ≡ in_class Any (first_of word).mode (first_of word).lower }
{
    is_one_of(0x1FFF_FFFF_FFFF_FFFF, word)
}

#[inline(always)]
#[tactic(auto, using(crate::proofs::ClassBits::data_places))]
pub fn is_data(word: u32) -> bool
    ensures { result ≡ in_class Data (first_of word).mode (first_of word).lower }
{
    is_one_of(0x1FFF_FFFF_FFFF_00FF, word)
}

#[inline(always)]
#[tactic(auto, using(crate::proofs::ClassBits::alterable_places), unfolding(crate::specs::ClassesClauses::IsAlterable))]
pub fn is_alterable(word: u32) -> bool
    ensures value { result ≡ in_class Alterable (first_of word).mode (first_of word).lower }
    ensures alterable { IsTrue result → IsChangeable word }
{
    is_one_of(0x03FF_FFFF_FFFF_FFFF, word)
}

#[inline(always)]
#[tactic(auto, using(crate::proofs::ClassBits::data_alterable_places), unfolding(crate::specs::ClassesClauses::IsAlterable))]
pub fn is_data_alterable(word: u32) -> bool
    ensures value { result ≡ in_class DataAlterable (first_of word).mode (first_of word).lower }
    ensures alterable { IsTrue result → IsChangeable word }
{
    is_one_of(0x03FF_FFFF_FFFF_00FF, word)
}

#[inline(always)]
#[tactic(auto, using(crate::proofs::ClassBits::memory_alterable_places), unfolding(crate::specs::ClassesClauses::IsAlterable))]
pub fn is_memory_alterable(word: u32) -> bool
    ensures value { result ≡ in_class MemoryAlterable (first_of word).mode (first_of word).lower }
    ensures alterable { IsTrue result → IsChangeable word }
{
    is_one_of(0x03FF_FFFF_FFFF_0000, word)
}

#[inline(always)]
#[tactic(auto, using(crate::proofs::ClassBits::control_places))]
pub fn is_control(word: u32) -> bool
    ensures { result ≡ in_class Control (first_of word).mode (first_of word).lower }
{
    is_one_of(0x0FFF_FF00_00FF_0000, word)
}

#[inline(always)]
#[tactic(auto, using(crate::proofs::ClassBits::control_alterable_places))]
pub fn is_control_alterable(word: u32) -> bool
    ensures { result ≡ in_class ControlAlterable (first_of word).mode (first_of word).lower }
{
    is_one_of(0x03FF_FF00_00FF_0000, word)
}

/// Whether it is a control place or (An)+.
#[inline(always)]
pub fn is_control_or_post(word: u32) -> bool
    ensures { result ≡ (in_class Control (first_of word).mode (first_of word).lower || ((first_of word).mode == 3)) }
{
    is_control(word) || mode_of(word) == 3
}

/// Whether a byte can be moved from it: any mode but an address register.
#[inline(always)]
pub fn is_byte_source(word: u32) -> bool
    ensures { result ≡ is_source Any Size.One (first_of word).mode (first_of word).lower }
{
    is_data(word)
}

/// Whether the modes of a source have it, at the size of bits 7 and 6: an address register has no byte.
#[inline(always)]
pub fn is_any_sized(word: u32) -> bool
    ensures { result ≡ is_source Any (size_of (first_of word).size) (first_of word).mode (first_of word).lower }
{
    if size_bits_of(word) == 0 {
        is_any(word) && mode_of(word) != 1
    } else {
        is_any(word)
    }
}

/// The same of what can be changed.
#[inline(always)]
pub fn is_alterable_sized(word: u32) -> bool
    ensures value { result ≡ is_source Alterable (size_of (first_of word).size) (first_of word).mode (first_of word).lower }
    ensures alterable { IsTrue result → IsChangeable word }
{
    if size_bits_of(word) == 0 {
        is_alterable(word) && mode_of(word) != 1
    } else {
        is_alterable(word)
    }
}

/// Whether bits 7 and 6 are a size, and the place is data alterable.
#[inline(always)]
pub fn is_data_alterable_sized(word: u32) -> bool
    ensures value { result ≡ (nat_lt (first_of word).size 3 && in_class DataAlterable (first_of word).mode (first_of word).lower) }
    ensures alterable { IsTrue result → IsChangeable word }
{
    is_sized(word) && is_data_alterable(word)
}

/// Whether the destination of a move is data alterable.
#[inline(always)]
#[tactic(auto, unfolding(crate::specs::ClassesClauses::IsAlterable))]
pub fn is_destination(word: u32) -> bool
    ensures value { result ≡ in_class DataAlterable (move_mode (first_of word)) (first_of word).upper }
    ensures alterable { IsTrue result → IsDestination word }
{
    let mode = move_mode_of(word);
    mode != 1 && (mode < 7 || upper_of(word) < 2)
}

/// Whether a bit instruction can work on the place: btst changes nothing.
#[inline(always)]
pub fn is_bit_place(word: u32) -> bool
    ensures value { result ≡ in_class (bit_class (first_of word).size) (first_of word).mode (first_of word).lower }
    ensures alterable { IsTrue result → IsBitChangeable word }
{
    if size_bits_of(word) == 0 {
        is_data(word)
    } else {
        is_data_alterable(word)
    }
}

/// Whether the low six bits are those of an immediate.
#[inline(always)]
pub fn is_immediate(word: u32) -> bool
    ensures { result ≡ is_immediate (first_of word) }
{
    word % 64 == 60
}
