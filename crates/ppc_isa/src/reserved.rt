// What a word has to meet besides its opcodes: reserved bits are 0, and it is no invalid form.
ghost use Rattle.std.specs.Prelude.{◌≡◌, ◌&&◌, not};
ghost use Rattle.ppc_isa.specs.Fields.{fields_of};
ghost use Rattle.ppc_isa.specs.Rows.{bare, count_branch, is_field as is_field_of, load_update, mask_move, multiple_load, one_field, one_register, store_update, string_load, to_field, two_fields};

use super::strings::{is_filled, string_registers};
use super::word::{a_of, b_of, d_of, is_last, shift_of};

/// Whether a number of five bits is that of a field of the condition register, with zeros behind it.
#[inline(always)]
pub fn is_field(n: usize) -> bool
    ensures { result ≡ is_field_of n }
{
    n % 4 == 0
}

/// A comparison of two registers.
#[inline(always)]
pub fn is_comparison(word: u32) -> bool
    ensures { result ≡ (not (fields_of word).last && to_field (fields_of word)) }
{
    !is_last(word) && is_field(d_of(word))
}

/// No operand.
#[inline(always)]
pub fn is_bare(word: u32) -> bool
    ensures { result ≡ (not (fields_of word).last && bare (fields_of word)) }
{
    !is_last(word) && d_of(word) == 0 && a_of(word) == 0 && b_of(word) == 0
}

/// Two fields of the condition register.
#[inline(always)]
pub fn is_two_fields(word: u32) -> bool
    ensures { result ≡ (not (fields_of word).last && two_fields (fields_of word)) }
{
    !is_last(word) && is_field(d_of(word)) && is_field(a_of(word)) && b_of(word) == 0
}

/// One field of the condition register.
#[inline(always)]
pub fn is_one_field(word: u32) -> bool
    ensures { result ≡ (not (fields_of word).last && one_field (fields_of word)) }
{
    !is_last(word) && is_field(d_of(word)) && a_of(word) == 0 && b_of(word) == 0
}

/// One register.
#[inline(always)]
pub fn is_one_register(word: u32) -> bool
    ensures { result ≡ (not (fields_of word).last && one_register (fields_of word)) }
{
    !is_last(word) && a_of(word) == 0 && b_of(word) == 0
}

/// A register and a mask of eight bits.
#[inline(always)]
pub fn is_mask_move(word: u32) -> bool
    ensures { result ≡ (not (fields_of word).last && mask_move (fields_of word)) }
{
    !is_last(word) && a_of(word) / 16 == 0 && b_of(word) % 2 == 0
}

/// A branch to the count register, which may not count it down.
#[inline(always)]
pub fn is_count_branch(word: u32) -> bool
    ensures { result ≡ count_branch (fields_of word) }
{
    b_of(word) == 0 && d_of(word) / 4 % 2 == 1
}

/// Whether a load may update register A.
#[inline(always)]
pub fn is_load_base(word: u32) -> bool
    ensures { result ≡ load_update (fields_of word) }
{
    a_of(word) != 0 && a_of(word) != d_of(word)
}

/// A load of several registers that leaves register A alone.
#[inline(always)]
pub fn is_multiple_load(word: u32) -> bool
    ensures { result ≡ multiple_load (fields_of word) }
{
    a_of(word) < d_of(word)
}

/// A load at an index that updates register A.
#[inline(always)]
pub fn is_load_update(word: u32) -> bool
    ensures { result ≡ (not (fields_of word).last && load_update (fields_of word)) }
{
    !is_last(word) && is_load_base(word)
}

/// A store at an index that updates register A.
#[inline(always)]
pub fn is_store_update(word: u32) -> bool
    ensures { result ≡ (not (fields_of word).last && store_update (fields_of word)) }
{
    !is_last(word) && a_of(word) != 0
}

/// A load of a string of fixed length that leaves register A alone.
#[inline(always)]
pub fn is_string_load(word: u32) -> bool
    ensures { result ≡ (not (fields_of word).last && string_load (fields_of word)) }
{
    !is_last(word) && !is_filled(a_of(word), d_of(word), string_registers(shift_of(word)))
}
