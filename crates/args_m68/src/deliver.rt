// What a callee is given.
ghost use Rattle.std.specs.Prelude.{◌≡◌, ◌+◌, ◌-◌, ◌*◌, ◌<◌, ◌≤◌, ◌++◌, Option, IsSome, is_some, if◌then◌else◌, true, length};
ghost use Rattle.m68_isa.specs.Registers.{cleared_registers};
ghost use Rattle.proc_info.specs.Codes.{is_dispatched};
ghost use Rattle.proc_info.specs.Views.{signature};
ghost use Rattle.args_m68.specs.Arguments.{words_of};
ghost use Rattle.args_m68.specs.Places.{params_bytes as params_bytes_lem, selector_width as selector_width_lem, width};
ghost use Rattle.args_m68.specs.Deliver.{below, callee_base as callee_base_lem, callee_registers, fresh as fresh_lem, pascal_slot, selector_slot, slots, stack_of, with_arguments, with_selector};
ghost use Rattle.args_m68.specs.DeliverClauses.{callee_sp, delivered};

use super::places::{params_bytes, place_for, result_bytes, selector_place, selector_width};
use super::values::put_value;
use super::words::Words;
use arrayvec::ArrayVec;
use big_memory::{Ram, return_gate};
use m68_isa::Regs68;
use mix_bits::{Isa, Size, append, trunc};
use proc_info::{Conv, Dispatch, Param, Route, Sig};

/// The bytes of a callee's stack: a return address, a selector, thirteen parameters and a result.
type Stack = ArrayVec<u8, 64>;

/// Where a callee begins.
#[derive(Clone, Copy, Debug, PartialEq, Eq)]
pub struct Start68 {
    /// The end of its stack.
    pub lo: u32,
    /// What it finds in A5.
    pub a5: u32,
    /// The address of its code.
    pub target: u32,
}

/// How far above the return address the parameters of a callee begin; `selector` tells whether it is
/// passed its selector.
pub fn callee_base(sig: &Sig, selector: bool) -> u32
    ensures value { result ≡ callee_base_lem (signature sig.now) selector }
    ensures small { result ≤ 8 }
{
    if selector {
        4 + selector_width(sig.conv, sig.selector)
    } else {
        4
    }
}

/// How many bytes of stack a 68K callee is given; `selector` tells whether it is passed its selector.
pub fn below68(sig: &Sig, selector: bool) -> u32
    ensures value { result ≡ below (signature sig.now) selector }
    ensures small { result ≤ 64 }
{
    let route = sig.conv.route();
    callee_base(sig, selector) + params_bytes(route, sig.params()) + result_bytes(route, sig.result)
}

/// Gives a 68K callee its stack, which ends at `lo`, and answers its registers. The stack holds the return
/// address, and a selector and the arguments that stand on it, each cut to its size, and else zeros; no other byte of
/// memory changes.
pub fn deliver68(
    sig: &Sig,
    args: &Words,
    selector: Option<u32>,
    lo: u32,
    a5: u32,
    target: u32,
    ram: &mut Ram,
) -> Regs68
    requires count { args.now.count ≡ sig.now.count }
    requires selector { IsSome selector → is_dispatched sig.now.conv ≡ true }
    requires room { below (signature sig.now) (is_some selector) ≤ lo }
    requires inside { lo ≤ length ram.old.bytes }
    ensures memory { ram.new ≡ delivered (signature sig.now) selector (words_of args.now) lo ram.old }
    ensures registers { result ≡ callee_registers (signature sig.now) selector (words_of args.now) a5 (callee_sp (signature sig.now) selector lo) target }
{
    let mut regs = Regs68::cleared();
    let values = &args.value[..args.count as usize];
    let start = Start68 { lo, a5, target };
    start_68(sig, values, selector, &start, ram, &mut regs);
    regs
}

/// The same for registers that are all 0, which become the callee's.
pub fn start_68(
    sig: &Sig,
    values: &[u32],
    selector: Option<u32>,
    start: &Start68,
    ram: &mut Ram,
    regs: &mut Regs68,
)
    requires count { length values.now ≡ sig.now.count }
    requires cleared { regs.old ≡ cleared_registers }
    requires selector { IsSome selector → is_dispatched sig.now.conv ≡ true }
    requires room { below (signature sig.now) (is_some selector) ≤ start.now.lo }
    requires inside { start.now.lo ≤ length ram.old.bytes }
    ensures memory { ram.new ≡ delivered (signature sig.now) selector values.now start.now.lo ram.old }
    ensures registers { regs.new ≡ callee_registers (signature sig.now) selector values.now start.now.a5 (callee_sp (signature sig.now) selector start.now.lo) start.now.target }
{
    let sp = start.lo - below68(sig, selector.is_some());
    let params = sig.params();
    ram.fix(sp, &stack(sig, params, values, selector));
    begin(regs, start.a5, sp, start.target);
    put_selector(regs, sig, selector);
    put_arguments(regs, sig.conv.route(), params, values);
}

/// The bytes of a callee's stack.
fn stack(sig: &Sig, params: &[Param], values: &[u32], selector: Option<u32>) -> Stack
    requires few { length params.now ≤ 13 }
    requires params { (signature sig.now).params ≡ params.now }
    requires count { length values.now ≡ length params.now }
    ensures bytes { result.items ≡ stack_of (signature sig.now) selector values.now }
    ensures length { length result.items ≡ below (signature sig.now) (is_some selector) }
{
    let route = sig.conv.route();
    let mut stack = ArrayVec::new();
    append(&mut stack, &return_gate(Isa::M68).to_be_bytes());
    append_selector(&mut stack, sig.conv, sig.selector, selector);
    append_slots(&mut stack, route, params, values);
    append(
        &mut stack,
        &[0; 4][..result_bytes(route, sig.result) as usize],
    );
    stack
}

/// Appends a selector that is passed on the stack.
fn append_selector(stack: &mut Stack, conv: Conv, size: Size, selector: Option<u32>)
    requires { length stack.old.items ≤ 60 }
    ensures bytes { stack.new.items ≡ stack.old.items ++ selector_slot conv size selector }
    ensures longer { length stack.new.items ≡ length stack.old.items + (if is_some selector then selector_width_lem conv size else 0) }
    ensures few { length stack.new.items ≤ length stack.old.items + 4 }
{
    if let Some(value) = selector {
        match conv.dispatch() {
            Dispatch::OnStack => append_packed(stack, size, value),
            Dispatch::Nowhere | Dispatch::D0 | Dispatch::D1 => {}
        }
    }
}

/// Appends the parameters that stand on the stack, from the lowest address on.
fn append_slots(stack: &mut Stack, route: Route, params: &[Param], values: &[u32])
    requires room { length stack.old.items + 4 * length params.now ≤ 64 }
    requires count { length values.now ≡ length params.now }
    ensures bytes { stack.new.items ≡ stack.old.items ++ slots route params.now values.now }
    ensures longer { length stack.new.items ≡ length stack.old.items + params_bytes_lem route params.now }
    ensures few { length stack.new.items ≤ length stack.old.items + 4 * length params.now }
{
    if let [first, rest @ ..] = params
        && let [value, others @ ..] = values
    {
        match route {
            Route::PascalStack => {
                append_slots(stack, route, rest, others);
                append_packed(stack, first.size, *value);
            }
            Route::CStack => {
                append(stack, &trunc(*value, first.size).to_be_bytes());
                append_slots(stack, route, rest, others);
            }
            Route::Registers => {}
        }
    }
}

/// Appends a value as it stands on a Pascal stack: a byte is the first of two.
fn append_packed(stack: &mut Stack, size: Size, value: u32)
    requires { length stack.old.items ≤ 60 }
    ensures bytes { stack.new.items ≡ stack.old.items ++ pascal_slot size value }
    ensures longer { length stack.new.items ≡ length stack.old.items + width size }
    ensures few { length stack.new.items ≤ length stack.old.items + 4 }
{
    match size {
        Size::Zero => {}
        Size::One => append(stack, &[(value & 0xFF) as u8, 0]),
        Size::Two => append(stack, &((value & 0xFFFF) as u16).to_be_bytes()),
        Size::Four => append(stack, &value.to_be_bytes()),
    }
}

/// Puts what a callee begins with into registers that are all 0.
fn begin(regs: &mut Regs68, a5: u32, sp: u32, target: u32)
    requires { regs.old ≡ cleared_registers }
    ensures { regs.new ≡ fresh_lem a5 sp target }
{
    regs.a[5] = a5;
    regs.a[7] = sp;
    regs.pc = target;
}

/// Puts a selector that is passed in a register into it.
fn put_selector(regs: &mut Regs68, sig: &Sig, selector: Option<u32>)
    ensures { regs.new ≡ with_selector (signature sig.now) selector regs.old }
{
    if let Some(value) = selector {
        put_value(regs, selector_place(sig.conv), sig.selector, value);
    }
}

/// Puts the arguments of parameters that stand in registers into these.
fn put_arguments(regs: &mut Regs68, route: Route, params: &[Param], values: &[u32])
    ensures { regs.new ≡ with_arguments route params.now values.now regs.old }
{
    if let [first, rest @ ..] = params
        && let [value, others @ ..] = values
    {
        put_value(regs, place_for(route, 0, first, 0), first.size, *value);
        put_arguments(regs, route, rest, others);
    }
}
