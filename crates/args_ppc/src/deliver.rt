// What a PowerPC callee is given.
ghost use Rattle.std.specs.Prelude.{◌≡◌, ◌+◌, ◌-◌, ◌*◌, ◌≤◌, ◌++◌, [], IsSome, is_some, if◌then◌else◌, true, length};
ghost use Rattle.big_memory.specs.Lists.{put};
ghost use Rattle.big_memory.specs.Memory.{with_bytes};
ghost use Rattle.ppc_isa.specs.Registers.{cleared_registers};
ghost use Rattle.proc_info.specs.Codes.{is_dispatched};
ghost use Rattle.proc_info.specs.Cut.{cut};
ghost use Rattle.proc_info.specs.Views.{signature};
ghost use Rattle.args_ppc.specs.Arguments.{words_of};
ghost use Rattle.args_ppc.specs.Deliver.{below, callee_registers, callee_words as callee_words_lem, frame_bytes as frame_bytes_lem, frame_of, registers_with};
ghost use Rattle.args_ppc.specs.DeliverClauses.{callee_sp, delivered};

use super::words::PpcWords;
use arrayvec::ArrayVec;
use big_memory::{Ram, return_gate};
use mix_bits::{Isa, trunc};
use ppc_isa::RegsPpc;
use proc_info::{Param, Sig};

/// How many bytes of a stack frame stand before the words that it holds: the linkage area, and the places of
/// the words in registers.
const FIXED_BYTES: u32 = 56;

/// How many bytes a stack frame has whose words all stand in registers.
const SHORT_BYTES: usize = 64;

/// The zeros of the largest stack frame.
const ZEROS: [u8; 80] = [0; 80];

/// The words of a callee: its selector and thirteen parameters.
type CalleeWords = ArrayVec<u32, 14>;

/// Where a callee begins.
#[derive(Clone, Copy, Debug, PartialEq, Eq)]
pub struct StartPpc {
    /// The end of its stack frame.
    pub lo: u32,
    /// The address of its code.
    pub code: u32,
    /// What it finds in r2, its TOC.
    pub toc: u32,
}

/// How many bytes of stack a PowerPC callee is given; `selector` tells whether it is passed its selector.
pub fn below_ppc(sig: &Sig, selector: bool) -> u32
    ensures value { result ≡ below (signature sig.now) selector }
    ensures small { result ≤ 80 }
{
    let words = if selector {
        1 + sig.params().len()
    } else {
        sig.params().len()
    };
    frame_bytes(words)
}

/// Gives a PowerPC callee its stack frame, which ends at `lo`, and answers its registers. The words are its
/// selector, if one is passed, and the arguments, each cut to its size: the first eight stand in r3 to r10,
/// the others in the frame, which else holds zeros; no other byte of memory changes.
pub fn deliver_ppc(
    sig: &Sig,
    args: &PpcWords,
    selector: Option<u32>,
    lo: u32,
    code: u32,
    toc: u32,
    ram: &mut Ram,
) -> RegsPpc
    requires count { args.now.count ≡ sig.now.count }
    requires selector { IsSome selector → is_dispatched sig.now.conv ≡ true }
    requires room { below (signature sig.now) (is_some selector) ≤ lo }
    requires inside { lo ≤ length ram.old.bytes }
    ensures memory { ram.new ≡ delivered (signature sig.now) selector (words_of args.now) lo ram.old }
    ensures registers { result ≡ callee_registers (signature sig.now) selector (words_of args.now) (callee_sp (signature sig.now) selector lo) code toc }
{
    let mut regs = RegsPpc::cleared();
    let values = &args.value[..args.count as usize];
    let start = StartPpc { lo, code, toc };
    start_ppc(sig, values, selector, &start, ram, &mut regs);
    regs
}

/// The same for registers that are all 0, which become the callee's.
pub fn start_ppc(
    sig: &Sig,
    values: &[u32],
    selector: Option<u32>,
    start: &StartPpc,
    ram: &mut Ram,
    regs: &mut RegsPpc,
)
    requires count { length values.now ≡ sig.now.count }
    requires cleared { regs.old ≡ cleared_registers }
    requires selector { IsSome selector → is_dispatched sig.now.conv ≡ true }
    requires room { below (signature sig.now) (is_some selector) ≤ start.now.lo }
    requires inside { start.now.lo ≤ length ram.old.bytes }
    ensures memory { ram.new ≡ delivered (signature sig.now) selector values.now start.now.lo ram.old }
    ensures registers { regs.new ≡ callee_registers (signature sig.now) selector values.now (callee_sp (signature sig.now) selector start.now.lo) start.now.code start.now.toc }
{
    let sp = start.lo - below_ppc(sig, selector.is_some());
    let mut words = ArrayVec::new();
    append_words(&mut words, sig, sig.params(), values, selector);
    write_frame(&words, sp, ram);
    put_registers(regs, &words, sp, start.code, start.toc);
}

/// Appends the words of a callee.
fn append_words(
    words: &mut CalleeWords,
    sig: &Sig,
    params: &[Param],
    values: &[u32],
    selector: Option<u32>,
)
    requires empty { words.old.items ≡ [] }
    requires few { length params.now ≤ 13 }
    requires params { (signature sig.now).params ≡ params.now }
    requires count { length values.now ≡ length params.now }
    ensures words { words.new.items ≡ callee_words_lem (signature sig.now) selector values.now }
    ensures count { length words.new.items ≡ (if is_some selector then 1 else 0) + length params.now }
{
    if let Some(selector) = selector {
        words.push(trunc(selector, sig.selector));
    }
    append_cut(words, params, values);
}

/// Appends values, each cut to its parameter's size.
fn append_cut(words: &mut CalleeWords, params: &[Param], values: &[u32])
    requires room { length words.old.items + length params.now ≤ 14 }
    requires count { length values.now ≡ length params.now }
    ensures words { words.new.items ≡ words.old.items ++ cut params.now values.now }
    ensures count { length words.new.items ≡ length words.old.items + length params.now }
{
    if let [first, rest @ ..] = params
        && let [value, others @ ..] = values
    {
        words.push(trunc(*value, first.size));
        append_cut(words, rest, others);
    }
}

/// How many bytes the stack frame of a callee with so many words has.
fn frame_bytes(words: usize) -> u32
    requires { words ≤ 14 }
    ensures value { result ≡ frame_bytes_lem words }
    ensures small { result ≤ 80 }
{
    (24 + 4 * words.max(8) as u32 + 15) / 16 * 16
}

/// Writes a callee's stack frame.
fn write_frame(words: &[u32], sp: u32, ram: &mut Ram)
    requires few { length words.now ≤ 14 }
    requires inside { sp + frame_bytes_lem (length words.now) ≤ length ram.old.bytes }
    ensures { ram.new ≡ with_bytes sp (frame_of words.now) ram.old }
{
    ram.meets_invariant();
    if words.len() > 8 {
        ram.fix(sp, &ZEROS[..frame_bytes(words.len()) as usize]);
        ram.fix_longs(sp + FIXED_BYTES, &words[8..]);
    } else {
        ram.fix(sp, &ZEROS[..SHORT_BYTES]);
    }
}

/// Puts the words of a callee, and what else it begins with, into its registers.
fn put_registers(regs: &mut RegsPpc, words: &[u32], sp: u32, code: u32, toc: u32)
    requires { regs.old ≡ cleared_registers }
    ensures { regs.new ≡ registers_with words.now sp code toc }
{
    put_words(&mut regs.gpr, &words[..words.len().min(8)]);
    regs.gpr[1] = sp;
    regs.gpr[2] = toc;
    regs.lr = return_gate(Isa::Ppc);
    regs.pc = code;
}

/// Puts words into the registers from r3 on.
fn put_words(registers: &mut [u32], words: &[u32])
    requires { 3 + length words.now ≤ length registers.old }
    ensures { registers.new ≡ put 3 words.now registers.old }
{
    registers[3..3 + words.len()].copy_from_slice(words);
}
