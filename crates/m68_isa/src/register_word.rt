// The fields of the word that names the registers of a long multiplication or division
// (M68000 Family Programmer's Reference Manual, section 4, MULS, MULU, DIVS, DIVU).
ghost use Rattle.std.specs.Prelude.{◌≡◌, ◌<◌};
ghost use Rattle.m68_isa.specs.Products.{high_of, is_register_word, is_signed, is_wide, low_of};

/// Bits 14 to 12: the register of the product's or the dividend's low 32 bits.
#[inline(always)]
pub fn low_of(registers: u32) -> usize
    ensures is { result ≡ low_of registers }
    ensures below { result < 8 }
{
    (registers / 0x1000 % 8) as usize
}

/// Bits 2 to 0: the register of the high 32 bits, or of the remainder.
#[inline(always)]
pub fn high_of(registers: u32) -> usize
    ensures is { result ≡ high_of registers }
    ensures below { result < 8 }
{
    (registers % 8) as usize
}

/// Bit 11: whether the operands are signed.
#[inline(always)]
pub fn is_signed(registers: u32) -> bool
    ensures { result ≡ is_signed registers }
{
    registers / 0x800 % 2 == 1
}

/// Bit 10: whether the product or the dividend has 64 bits.
#[inline(always)]
pub fn is_wide(registers: u32) -> bool
    ensures { result ≡ is_wide registers }
{
    registers / 0x400 % 2 == 1
}

/// Whether the bits without a meaning, 15 and 9 to 3, are zero.
#[inline(always)]
pub fn is_register_word(registers: u32) -> bool
    ensures { result ≡ is_register_word registers }
{
    registers / 0x8000 % 2 == 0 && registers / 8 % 0x80 == 0
}
