ghost use Rattle.std.specs.Prelude.{◌≡◌, ◌≢◌, ◌+◌, ◌/◌, ◌%◌, ◌≤◌, length, replicate, IfOk, OnErr, Ok, true, nat_le, ◌||◌, ◌&&◌, ◌==◌};
ghost use Rattle.std.specs.List.{list_any};
ghost use Rattle.mix_bits.specs.Digits.{digit_of};
ghost use Rattle.proc_info.specs.Codes.{size_at, is_place};
ghost use Rattle.proc_info.specs.inner.Filling.{Fills};
ghost use Rattle.proc_info.specs.inner.Nothing.{nothing};
ghost use Rattle.proc_info.specs.Rules.{KeepsRules};
ghost use Rattle.proc_info.specs.Signature.{Signature, base, has_signature, param_at, params_at, is_twice, signature_by, signature_in, signature_of};
ghost use Rattle.proc_info.specs.SignatureClauses.{word_of};
ghost use Rattle.proc_info.specs.Views.{answered, signature};

use super::bad_info::BadInfo;
use super::conv::{Conv, Shape};
use super::param::Param;
use super::sig::Sig;
use super::size::size_numbered;
use mix_bits::{Size, digit};

/// The signature of a procInfo word, or the first refusal in the order of `BadInfo`.
#[tactic(auto, using(crate::proofs::Fields::of_convention, crate::proofs::Fields::of_no_convention, crate::proofs::Fields::goes_back, crate::proofs::Fields::goes_right, crate::proofs::Fields::goes_nowhere))]
pub fn read(w: u32) -> Result<Sig, BadInfo>
    ensures exact { answered result ≡ signature_of w }
    ensures back { IfOk result (λ sig. word_of (signature sig) ≡ w) }
    ensures rules { IfOk result (λ sig. KeepsRules (signature sig)) }
    ensures none { OnErr result ((s : Signature) → KeepsRules s → word_of s ≢ w) }
{
    let conv = Conv::at(digit(w, 0, 4))?;
    match conv.shape() {
        Shape::Stack => read_stack(conv, w),
        Shape::Dispatched => read_dispatched(conv, w),
        Shape::Registers => read_registers(conv, w),
    }
}

/// The signature of a word that has one, as each word that a frame keeps.
pub fn read_signed(w: u32) -> Sig
    requires { has_signature w ≡ true }
    ensures value { signature result ≡ signature_in w }
    ensures exact { signature_of w ≡ Ok (signature result) }
{
    match read(w) {
        Ok(sig) => sig,
        Err(_) => unreachable!(),
    }
}

#[tactic(auto, using(crate::proofs::Fields::of_stack, crate::proofs::Fields::of_stack_refused))]
fn read_stack(conv: Conv, w: u32) -> Result<Sig, BadInfo>
    requires { signature_of w ≡ signature_by Shape.Stack conv w }
    ensures { answered result ≡ signature_of w }
{
    let mut params = [Param::NONE; 13];
    let count = fill(&mut params, 13, Shape::Stack, digit(w, 6, 26))?;
    Ok(Sig {
        conv,
        result: size_field(w, 4),
        place: 0,
        selector: Size::Zero,
        count,
        params,
    })
}

#[tactic(auto, using(crate::proofs::Fields::of_no_selector, crate::proofs::Fields::of_dispatched, crate::proofs::Fields::of_dispatched_refused))]
fn read_dispatched(conv: Conv, w: u32) -> Result<Sig, BadInfo>
    requires { signature_of w ≡ signature_by Shape.Dispatched conv w }
    ensures { answered result ≡ signature_of w }
{
    if digit(w, 6, 2) == 0 {
        return Err(BadInfo::Gap);
    }
    let mut params = [Param::NONE; 13];
    let count = fill(&mut params, 12, Shape::Dispatched, digit(w, 8, 24))?;
    Ok(Sig {
        conv,
        result: size_field(w, 4),
        place: 0,
        selector: size_field(w, 6),
        count,
        params,
    })
}

#[tactic(auto, using(crate::proofs::Fields::of_top_bit, crate::proofs::Fields::of_no_place, crate::proofs::Fields::of_registers_refused, crate::proofs::Fields::of_twice, crate::proofs::Fields::of_registers))]
fn read_registers(conv: Conv, w: u32) -> Result<Sig, BadInfo>
    requires { signature_of w ≡ signature_by Shape.Registers conv w }
    ensures { answered result ≡ signature_of w }
{
    let result_size = size_field(w, 4);
    let place = digit(w, 6, 5);
    if digit(w, 31, 1) == 1 {
        return Err(BadInfo::TopBit);
    }
    if !is_result_place(place, result_size) {
        return Err(BadInfo::Place);
    }
    let mut params = [Param::NONE; 13];
    let count = fill(&mut params, 4, Shape::Registers, digit(w, 11, 21))?;
    if names_twice(&params[..count as usize]) {
        return Err(BadInfo::Twice);
    }
    Ok(Sig {
        conv,
        result: result_size,
        place: place as u8,
        selector: Size::Zero,
        count,
        params,
    })
}

/// The size in two bits from bit `at` on.
fn size_field(w: u32, at: u32) -> Size
    requires { at + 2 ≤ 32 }
    ensures { result ≡ size_at (digit_of w at 2) }
{
    size_numbered(digit(w, at, 2))
}

/// Whether a result of this size may be in this place.
fn is_result_place(place: u32, size: Size) -> bool
    ensures { result ≡ is_place place size }
{
    match size {
        Size::Zero => place == 0,
        _ => is_register_or_bit(place),
    }
}

/// Whether a place is a data register, one of A0 to A6 or a condition bit.
fn is_register_or_bit(place: u32) -> bool
    ensures { result ≡ (nat_le place 14 || (nat_le 16 place && nat_le place 20)) }
{
    place <= 14 || (16 <= place && place <= 20)
}

/// Whether a register is named by two of the parameters.
fn names_twice(params: &[Param]) -> bool
    ensures { result ≡ is_twice params.now }
{
    match params {
        [] => false,
        [first, rest @ ..] => is_named(first.reg, rest) | names_twice(rest),
    }
}

/// Whether one of the parameters is in this register.
fn is_named(reg: u8, params: &[Param]) -> bool
    ensures { result ≡ list_any (λ p. p.reg == reg) params.now }
{
    params.iter().any(|p| p.reg == reg)
}

/// Puts the parameters that the digits of `v` say at the front of `list`, `most` of them at the most, and
/// answers how many there are.
#[inline(always)]
fn fill(list: &mut [Param], most: u8, shape: Shape, v: u32) -> Result<u8, BadInfo>
    requires room { most ≤ length list.old }
    requires empty { list.old ≡ replicate (length list.old) nothing }
    ensures { Fills most list.new result (params_at shape most v) }
{
    let mut count = 0;
    let mut left = v;
    while left != 0 {
        if count == most || left % 4 == 0 {
            return Err(BadInfo::Gap);
        }
        list[count as usize] = lowest(shape, left);
        left = without_lowest(shape, left);
        count += 1;
    }
    Ok(count)
}

/// The parameter that the lowest digit of `v` says.
fn lowest(shape: Shape, v: u32) -> Param
    ensures { result ≡ param_at shape v }
{
    let size = size_numbered(v % 4);
    match shape {
        Shape::Stack => Param { size, reg: 0 },
        Shape::Dispatched => Param { size, reg: 0 },
        Shape::Registers => Param {
            size,
            reg: (v / 4 % 8) as u8,
        },
    }
}

/// The digits of `v` above the lowest one.
fn without_lowest(shape: Shape, v: u32) -> u32
    ensures { result ≡ v / base shape }
{
    match shape {
        Shape::Stack => v / 4,
        Shape::Dispatched => v / 4,
        Shape::Registers => v / 32,
    }
}
