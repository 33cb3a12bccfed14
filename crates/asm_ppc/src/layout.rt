// The places of numbers in words.
ghost use Rattle.std.specs.Prelude.{◌≡◌};
ghost use Rattle.asm_ppc.specs.inner.Spelling.{placed as placed_of, spelled};

use super::numbers::Numbers;

/// The operands of a line, in their order, and their places in the word (PowerPC 601 RISC Microprocessor
/// User's Manual, chapter 10).
#[derive(Clone, Copy)]
pub enum Layout {
    /// No operand.
    Nothing,
    /// D.
    One,
    /// D and A, or BO and BI.
    Two,
    /// D, A and B.
    Three,
    /// A and S, in the places of A and D.
    LogicalTwo,
    /// A, S and B, in the places of A, D and B.
    LogicalThree,
    /// D, A and sixteen bits.
    Immediate,
    /// A, S and sixteen bits.
    LogicalImmediate,
    /// A field of the condition register, 0, A and sixteen bits.
    CompareImmediate,
    /// A field of the condition register, 0, A and B.
    Compare,
    /// A, S, a count or B, and the ends of the mask.
    Rotate,
    /// D, sixteen bits, and A as their base.
    Access,
    /// BO, BI and a target, by its distance.
    ConditionalBy,
    /// BO, BI and a target, by its address.
    ConditionalTo,
    /// A target, by its distance.
    BranchBy,
    /// A target, by its address.
    BranchTo,
    /// Two fields of the condition register.
    ConditionFields,
    /// A field of the condition register.
    ConditionField,
    /// A mask of fields of the condition register, and S.
    FieldMask,
    /// The word itself.
    Long,
}

/// A word whose operands are 0, and the places of its operands.
#[derive(Clone, Copy)]
pub struct Spelling {
    pub word: u32,
    pub layout: Layout,
}

/// The word with its numbers at their places. Numbers that don't fit give a word of another text.
pub fn spell(spelling: Spelling, numbers: Numbers, at: u32) -> u32
    ensures { result ≡ spelled spelling numbers at }
{
    let word = u64::from(spelling.word) + placed(spelling.layout, numbers, at);
    (word % 0x1_0000_0000) as u32
}

/// The sum of the numbers at their places.
fn placed(layout: Layout, numbers: Numbers, at: u32) -> u64
    ensures { result ≡ placed_of layout numbers at }
{
    let a = u64::from(numbers.a);
    let b = u64::from(numbers.b);
    let c = u64::from(numbers.c);
    let d = u64::from(numbers.d);
    let e = u64::from(numbers.e);
    match layout {
        Layout::Nothing => 0,
        Layout::One => a * 0x20_0000,
        Layout::Two => b * 0x20_0000 + a * 0x1_0000,
        Layout::Three => c * 0x20_0000 + b * 0x1_0000 + a * 0x800,
        Layout::LogicalTwo => a * 0x20_0000 + b * 0x1_0000,
        Layout::LogicalThree => b * 0x20_0000 + c * 0x1_0000 + a * 0x800,
        Layout::Immediate => c * 0x20_0000 + b * 0x1_0000 + a,
        Layout::LogicalImmediate => b * 0x20_0000 + c * 0x1_0000 + a,
        Layout::CompareImmediate => d * 0x80_0000 + b * 0x1_0000 + a,
        Layout::Compare => d * 0x80_0000 + b * 0x1_0000 + a * 0x800,
        Layout::Rotate => d * 0x20_0000 + e * 0x1_0000 + c * 0x800 + b * 0x40 + a * 2,
        Layout::Access => c * 0x20_0000 + a * 0x1_0000 + b,
        Layout::ConditionalBy => c * 0x20_0000
            + b * 0x1_0000
            + (a + 0x1_0000_0000 - u64::from(at)) % 0x1_0000,
        Layout::ConditionalTo => c * 0x20_0000 + b * 0x1_0000 + a % 0x1_0000,
        Layout::BranchBy => (a + 0x1_0000_0000 - u64::from(at)) % 0x400_0000,
        Layout::BranchTo => a % 0x400_0000,
        Layout::ConditionFields => b * 0x80_0000 + a * 0x4_0000,
        Layout::ConditionField => a * 0x80_0000,
        Layout::FieldMask => b * 0x1000 + a * 0x20_0000,
        Layout::Long => a,
    }
}
