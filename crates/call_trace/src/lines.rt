// The text of each line, put into an empty one.
ghost use Rattle.std.specs.Prelude.{◌≡◌, ◌+◌, ◌*◌, ◌≤◌, ◌⊎◌, ◌++◌, [], length, codes, decimal};
ghost use Rattle.mix_bits.specs.Text.{hexadecimal};
ghost use Rattle.call_trace.specs.Lines.{answer_text as text_of_answer, arguments, ask_line, call_head, call_line, end_line, fault_line, marked, ret_line};
ghost use Rattle.proc_info.specs.Views.{signature};
ghost use Rattle.switch_frame.specs.RecordsClauses.{record_of};

use crate::End;
use crate::names::{fault_name, set_name, set_names};
use dev_rack::Answer;
use mix_bits::{Fault, Isa, Line, Size};
use proc_info::{Param, Sig};
use switch_frame::Held;

/// `call FROM TO TARGET PROCINFO #SELECTOR ARGUMENTS`
#[inline(always)]
#[tactic(auto, unfolding(crate::specs::Lines::call_line))]
pub fn put_call_text(line: &mut Line, held: &Held, sig: &Sig, args: &[u32])
    requires empty { line.old ≡ [] }
    requires few { length args.now ≤ 13 }
    ensures { line.new ≡ call_line (record_of held.now) (signature sig.now) args.now }
{
    start_call(line, held, sig);
    add_arguments(line, sig.params(), args);
    line.add("\n");
}

/// The line of a call up to its arguments.
#[inline(always)]
fn start_call(line: &mut Line, held: &Held, sig: &Sig)
    requires empty { line.old ≡ [] }
    ensures text { line.new ≡ call_head (record_of held.now) (signature sig.now) }
    ensures room { length line.new ≤ 40 }
{
    line.add("call ");
    line.add(set_names(held.kind));
    line.add(" ");
    line.add_hex(held.target, 8);
    line.add(" ");
    line.add_hex(held.info, 8);
    add_marked(line, " #", sig.selector, held.selector);
}

/// `ret RESULT`
#[inline(always)]
#[tactic(auto, unfolding(crate::specs::Lines::ret_line))]
pub fn put_ret_text(line: &mut Line, sig: &Sig, value: u32)
    requires empty { line.old ≡ [] }
    ensures { line.new ≡ ret_line (signature sig.now) value }
{
    line.add("ret");
    add_marked(line, " ", sig.result, value);
    line.add("\n");
}

/// `ask SLOT WORD ANSWER`
#[tactic(auto, unfolding(crate::specs::Lines::ask_line))]
pub fn put_ask_text(line: &mut Line, slot: u32, word: u32, answer: Answer)
    requires empty { line.old ≡ [] }
    ensures { line.new ≡ ask_line slot word answer }
{
    line.add("ask ");
    line.add_dec(slot);
    line.add(" ");
    line.add_hex(word, 8);
    line.add(" ");
    add_answer(line, answer);
    line.add("\n");
}

/// `exit CODE`, `fault NAME SET PC DETAIL ALSO` or `limit`
#[tactic(auto, unfolding(crate::specs::Lines::end_line))]
pub fn put_end_text(line: &mut Line, end: &End)
    requires empty { line.old ≡ [] }
    ensures { line.new ≡ end_line end.now }
{
    match *end {
        End::Exit(code) => put_exit_text(line, code),
        End::Fault(set, fault) => put_fault_text(line, set, fault),
        End::Limit => line.add("limit\n"),
    }
}

fn put_exit_text(line: &mut Line, code: u32)
    requires empty { line.old ≡ [] }
    ensures { line.new ≡ codes "exit " ++ decimal code ++ codes "\n" }
{
    line.add("exit ");
    line.add_dec(code);
    line.add("\n");
}

fn put_fault_text(line: &mut Line, set: Isa, fault: Fault)
    requires empty { line.old ≡ [] }
    ensures { line.new ≡ fault_line set fault }
{
    line.add("fault ");
    line.add(fault_name(fault.kind));
    line.add(" ");
    line.add(set_name(set));
    line.add(" ");
    line.add_hex(fault.pc, 8);
    line.add(" ");
    line.add_hex(fault.detail, 8);
    line.add(" ");
    line.add_hex(fault.also, 8);
    line.add("\n");
}

/// Appends the arguments by the sizes of their parameters.
#[tactic(auto, unfolding(crate::specs::Lines::arguments))]
fn add_arguments(line: &mut Line, params: &[Param], args: &[u32])
    requires { length line.old + 9 * length args.now ≤ 159 }
    ensures text { line.new ≡ line.old ++ arguments params.now args.now }
    ensures room { length line.new ≤ length line.old + 9 * length args.now }
{
    match params {
        [] => {}
        [param, params @ ..] => match args {
            [] => {}
            [arg, args @ ..] => {
                add_marked(line, " ", param.size, *arg);
                add_arguments(line, params, args);
            }
        },
    }
}

/// Appends a mark and a value in as many digits as its size has, and nothing where it has no size.
#[inline(always)]
fn add_marked(line: &mut Line, mark: &str, size: Size, value: u32)
    requires { length line.old + length mark.now + 8 ≤ 160 }
    ensures text { line.new ≡ line.old ++ marked mark.now size value }
    ensures room { length line.new ≤ length line.old + length mark.now + 8 }
{
    match size {
        Size::Zero => {}
        Size::One => add_digits(line, mark, value, 2),
        Size::Two => add_digits(line, mark, value, 4),
        Size::Four => add_digits(line, mark, value, 8),
    }
}

/// Appends a mark and hexadecimal digits.
#[inline(always)]
fn add_digits(line: &mut Line, mark: &str, value: u32, digits: u32)
    requires digits { (digits ≡ 2) ⊎ (digits ≡ 4) ⊎ (digits ≡ 8) }
    requires room { length line.old + length mark.now + digits ≤ 160 }
    ensures { line.new ≡ line.old ++ (mark.now ++ hexadecimal digits value) }
{
    line.add(mark);
    line.add_hex(value, digits);
}

/// Appends what came of an ask.
fn add_answer(line: &mut Line, answer: Answer)
    requires { length line.old + 8 ≤ 160 }
    ensures text { line.new ≡ line.old ++ text_of_answer answer }
    ensures room { length line.new ≤ length line.old + 8 }
{
    match answer {
        Answer::Word(word) => line.add_hex(word, 8),
        Answer::Failed => line.add("fail"),
        Answer::Empty => line.add("empty"),
        Answer::Full => line.add("full"),
    }
}
