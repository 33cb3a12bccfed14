// How steps end that change registers alone.
ghost use Rattle.std.specs.Prelude.{◌<◌, ◌/◌, ◌==◌, true, false};
ghost use Rattle.ppc_isa.specs.Fields.{fields_of};
ghost use Rattle.ppc_integer.specs.Arithmetic.{with_arith};
ghost use Rattle.ppc_integer.specs.File.{with_result};
ghost use Rattle.ppc_integer.specs.AloneClauses.{Ends};

use super::results::{Sets, advance, put_arith, put_result};
use big_memory::Did;
use ppc_alu::Arith;
use ppc_isa::{RegsPpc, d_of, is_last, is_overflow};

/// Ends a step that changed registers alone: the next instruction follows.
#[inline(always)]
#[tactic(auto, using(big_memory::proofs::Free::nothing_free))]
pub fn finish(regs: &mut RegsPpc) -> Did
    ensures { Ends regs.old result regs.new }
{
    advance(regs);
    Did::Next
}

/// Ends a step whose result goes to register `n`, and is recorded with `rc`.
#[inline(always)]
pub fn finish_result(regs: &mut RegsPpc, n: usize, rc: bool, value: u32) -> Did
    requires { n < 32 }
    ensures { Ends (with_result regs.old n rc value) result regs.new }
{
    if rc {
        finish_recorded(regs, n, rc, value)
    } else {
        put_result(regs, n, false, value);
        finish(regs)
    }
}

/// The same in a place of its own, for results with Rc.
#[inline(never)]
fn finish_recorded(regs: &mut RegsPpc, n: usize, rc: bool, value: u32) -> Did
    requires { n < 32 }
    ensures { Ends (with_result regs.old n rc value) result regs.new }
{
    put_result(regs, n, rc, value);
    finish(regs)
}

/// Ends a step whose outcome goes to register D: its carry to CA where `ca`, and what OE and Rc say.
#[inline(always)]
pub fn finish_overflow(regs: &mut RegsPpc, word: u32, ca: bool, outcome: Arith) -> Did
    ensures { let f = fields_of word in Ends (with_arith regs.old f.d ca ((f.xo / 512) == 1) f.last outcome) result regs.new }
{
    let sets = Sets {
        ca,
        oe: is_overflow(word),
        rc: is_last(word),
    };
    finish_arith(regs, d_of(word), sets, outcome)
}

/// Ends a step whose outcome goes to register `n`, and its carry to CA, and is recorded with `rc`.
#[inline(always)]
pub fn finish_carrying(regs: &mut RegsPpc, n: usize, rc: bool, outcome: Arith) -> Did
    requires { n < 32 }
    ensures { Ends (with_arith regs.old n true false rc outcome) result regs.new }
{
    let sets = Sets {
        ca: true,
        oe: false,
        rc,
    };
    finish_arith(regs, n, sets, outcome)
}

/// Ends a step whose outcome goes to register `n`.
#[inline(always)]
fn finish_arith(regs: &mut RegsPpc, n: usize, sets: Sets, outcome: Arith) -> Did
    requires { n < 32 }
    ensures { Ends (with_arith regs.old n sets.ca sets.oe sets.rc outcome) result regs.new }
{
    if sets.oe || sets.rc {
        finish_flags(regs, n, sets, outcome)
    } else {
        put_arith(regs, n, sets, outcome);
        finish(regs)
    }
}

/// The same in a place of its own, for outcomes with OE or Rc.
#[inline(never)]
fn finish_flags(regs: &mut RegsPpc, n: usize, sets: Sets, outcome: Arith) -> Did
    requires { n < 32 }
    ensures { Ends (with_arith regs.old n sets.ca sets.oe sets.rc outcome) result regs.new }
{
    put_arith(regs, n, sets, outcome);
    finish(regs)
}
