ghost use Rattle.std.specs.Prelude.{◌≡◌, ◌%◌, ◌<◌, ◌^◌};
ghost use Rattle.big_memory.specs.StepsClauses.{Does};
ghost use Rattle.m68_ea.specs.Words.{words_at};
ghost use Rattle.m68_effects.specs.Step.{stepped};
ghost use Rattle.m68_isa.specs.Operations.{operation};
ghost use Rattle.m68_isa.specs.First.{first_of};
ghost use Rattle.m68_isa.specs.laws.Fits.{Fits};
ghost use Rattle.m68_core.specs.laws.Edge.{IsFirst, IsThere};
ghost use Rattle.m68_core.specs.Fetch.{places_of};
ghost use Rattle.m68_core.specs.Steps.{Steps};

use super::dispatch::run_op;
use super::fetch::{is_plain, plain_word};
use super::laws::step_law;
use super::words::is_short;
use big_memory::{Did, Ram, stop};
use m68_ea::read_words;
use m68_isa::{Op68, Regs68, op_of_word};
use mix_bits::{Fault, FaultKind, onward};

/// What a step of 68K code did.
#[derive(Clone, Copy, PartialEq)]
pub enum Out68 {
    /// The step is done.
    Next,
    /// At this word of line A, $A000 to $AFFF. Nothing has changed.
    Line(u16),
    /// The step can't be done. Nothing has changed.
    Stop(Fault),
}

/// One step of the instruction at `regs.pc`: it is done, and has changed of memory only what a store may
/// change; or it answers why not, and has changed nothing.
pub fn step68(regs: &mut Regs68, ram: &mut Ram) -> Out68
    ensures { Steps (stepped regs.old ram.old) result regs.old regs.new ram.old ram.new }
{
    let mut fault = Fault::at(0, FaultKind::Illegal, 0);
    match run_slowly(regs, ram, &mut fault) {
        Did::Next => Out68::Next,
        Did::Leave => Out68::Line(fault.detail as u16),
        Did::Stop => Out68::Stop(fault),
    }
}

/// The same with the fault, or the word of line A as its detail, in a cell beside the answer. The cell tells nothing
/// where the step is done. For loops over many steps, which take the places of memory once.
#[inline(always)]
pub fn run(regs: &mut Regs68, ram: &mut Ram, fault: &mut Fault, places: u32) -> Did
    requires { places ≡ places_of ram.old }
    ensures does { Does (stepped regs.old ram.old) result fault.new regs.old regs.new ram.old ram.new }
    ensures line { result ≡ Did.Leave → fault.new.detail < 2 ^ 16 }
    ensures places { places_of ram.new ≡ places_of ram.old }
{
    if is_plain(regs.pc, ram, places) {
        let word = plain_word(regs.pc, ram);
        run_word(regs, ram, fault, word, op_of_word(word))
    } else {
        run_slowly(regs, ram, fault)
    }
}

/// An instruction none of whose words is missing, by its first word and the operation of that.
#[inline(always)]
fn run_word(regs: &mut Regs68, ram: &mut Ram, fault: &mut Fault, word: u32, op: Op68) -> Did
    requires even { regs.old.pc % 2 ≡ 0 }
    requires first { IsFirst word (words_at ram.old regs.old.pc) }
    requires there { IsThere (words_at ram.old regs.old.pc) }
    requires below { word < 2 ^ 16 }
    requires operation { op ≡ operation (first_of word) }
    requires fits { Fits op word }
    ensures does { Does (stepped regs.old ram.old) result fault.new regs.old regs.new ram.old ram.new }
    ensures line { result ≡ Did.Leave → fault.new.detail < 2 ^ 16 }
{
    step_law(regs, ram, word, op);
    run_op(regs, ram, fault, word, op)
}

/// Any instruction, which may stand at an odd address or end behind memory: its words are read one by one.
#[cold]
#[inline(never)]
fn run_slowly(regs: &mut Regs68, ram: &mut Ram, fault: &mut Fault) -> Did
    ensures does { Does (stepped regs.old ram.old) result fault.new regs.old regs.new ram.old ram.new }
    ensures line { result ≡ Did.Leave → fault.new.detail < 2 ^ 16 }
{
    let pc = regs.pc;
    if pc % 2 == 1 {
        return stop::<Regs68>(fault, FaultKind::Odd, pc, pc);
    }
    let mut words = [0; 5];
    let count = read_words(ram, pc, &mut words);
    if is_short(&words[..count]) {
        return stop::<Regs68>(fault, FaultKind::Outside, pc, onward(pc, 2 * count as u32));
    }
    let word = u32::from(words[0]);
    run_word(regs, ram, fault, word, op_of_word(word))
}
