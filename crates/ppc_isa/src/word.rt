ghost use Rattle.std.specs.Prelude.{◌≡◌, ◌+◌, ◌*◌, ◌/◌, ◌%◌, ◌^◌, ◌<◌, ◌==◌};
ghost use Rattle.mix_bits.specs.Sizes.{sign_extended};
ghost use Rattle.mix_bits.specs.declared.size.Size.TheVariants.{Two};
ghost use Rattle.ppc_isa.specs.Fields.{displacement_of, fields_of};

/// The opcode.
#[inline(always)]
pub fn primary_of(word: u32) -> u32
    ensures { result ≡ (fields_of word).op }
{
    word / 0x400_0000
}

/// The extended opcode of ten bits.
#[inline(always)]
pub fn extended_of(word: u32) -> u32
    ensures { result ≡ (fields_of word).xo }
{
    word / 2 % 0x400
}

/// The number of a special purpose register, whose halves stand swapped in the word.
#[inline(always)]
pub fn special_of(word: u32) -> u32
    ensures { result ≡ (fields_of word).b * 32 + (fields_of word).a }
{
    (word / 0x800 % 32) * 32 + word / 0x1_0000 % 32
}

/// The number of register D or S, or BO, or TO.
#[inline(always)]
pub fn d_of(word: u32) -> usize
    ensures is { result ≡ (fields_of word).d }
    ensures below { result < 32 }
{
    (word / 0x20_0000 % 32) as usize
}

/// The number of register A, or BI.
#[inline(always)]
pub fn a_of(word: u32) -> usize
    ensures is { result ≡ (fields_of word).a }
    ensures below { result < 32 }
{
    (word / 0x1_0000 % 32) as usize
}

/// The number of register B.
#[inline(always)]
pub fn b_of(word: u32) -> usize
    ensures is { result ≡ (fields_of word).b }
    ensures below { result < 32 }
{
    (word / 0x800 % 32) as usize
}

/// The count SH of a shift, or NB of a string.
#[inline(always)]
pub fn shift_of(word: u32) -> u32
    ensures is { result ≡ (fields_of word).b }
    ensures below { result < 32 }
{
    word / 0x800 % 32
}

/// The first bit MB of a mask.
#[inline(always)]
pub fn mask_begin_of(word: u32) -> u32
    ensures is { result ≡ (fields_of word).xo / 32 }
    ensures below { result < 32 }
{
    word / 0x40 % 32
}

/// The last bit ME of a mask.
#[inline(always)]
pub fn mask_end_of(word: u32) -> u32
    ensures is { result ≡ (fields_of word).xo % 32 }
    ensures below { result < 32 }
{
    word / 2 % 32
}

/// The low sixteen bits.
#[inline(always)]
pub fn low_of(word: u32) -> u32
    ensures is { result ≡ (fields_of word).low }
    ensures below { result < 2 ^ 16 }
{
    word % 0x1_0000
}

/// The low sixteen bits as a signed number, extended to a word.
#[inline(always)]
pub fn offset_of(word: u32) -> u32
    ensures { result ≡ sign_extended (fields_of word).low Two }
{
    i32::from((low_of(word) as u16).cast_signed()).cast_unsigned()
}

/// Rc or LK, the last bit.
#[inline(always)]
pub fn is_last(word: u32) -> bool
    ensures { result ≡ (fields_of word).last }
{
    word % 2 == 1
}

/// OE, before an extended opcode of nine bits.
#[inline(always)]
pub fn is_overflow(word: u32) -> bool
    ensures { result ≡ (((fields_of word).xo / 512) == 1) }
{
    word / 0x400 % 2 == 1
}

/// AA: whether a branch's target is no distance.
#[inline(always)]
pub fn is_absolute(word: u32) -> bool
    ensures { result ≡ (((fields_of word).low / 2 % 2) == 1) }
{
    word / 2 % 2 == 1
}

/// The field of the condition register in the place of D.
#[inline(always)]
pub fn to_field_of(word: u32) -> u32
    ensures is { result ≡ (fields_of word).d / 4 }
    ensures below { result < 8 }
{
    word / 0x80_0000 % 8
}

/// The field of the condition register in the place of A.
#[inline(always)]
pub fn from_field_of(word: u32) -> u32
    ensures is { result ≡ (fields_of word).a / 4 }
    ensures below { result < 8 }
{
    word / 0x4_0000 % 8
}

/// The fields that mtcrf names, as eight bits of which the first is that of field 0.
#[inline(always)]
pub fn named_fields_of(word: u32) -> u32
    ensures { result ≡ (fields_of word).a * 16 + (fields_of word).b / 2 }
{
    word / 0x1000 % 0x200
}

/// A conditional branch's distance or target: fourteen signed bits times 4.
#[inline(always)]
pub fn near_displacement_of(word: u32) -> u32
    ensures { result ≡ displacement_of 16 ((fields_of word).low / 4 * 4) }
{
    let near = word % 0x1_0000 / 4 * 4;
    ((near + 0x8000) % 0x1_0000).wrapping_sub(0x8000)
}

/// A branch's distance or target: 24 signed bits times 4.
#[inline(always)]
pub fn far_displacement_of(word: u32) -> u32
    ensures { result ≡ displacement_of 26 ((fields_of word).d * 2 ^ 21 + (fields_of word).a * 2 ^ 16 + (fields_of word).low / 4 * 4) }
{
    let far = word % 0x400_0000 / 4 * 4;
    ((far + 0x200_0000) % 0x400_0000).wrapping_sub(0x200_0000)
}
