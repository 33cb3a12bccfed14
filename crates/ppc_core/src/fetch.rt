// The word of the instruction at pc.
ghost use Rattle.std.specs.Prelude.{◌≡◌, ◌+◌, ◌%◌, ◌≤◌, length};
ghost use Rattle.std.specs.Bool.{OnTrue};
ghost use Rattle.big_memory.specs.Map.{gate_page_end, host_code as host_code_of};
ghost use Rattle.big_memory.specs.Memory.{Memory};
ghost use Rattle.big_memory.specs.StepsClauses.{Does};
ghost use Rattle.ppc_integer.specs.Effects.{at_gate_page as at_gate_page_of};
ghost use Rattle.ppc_isa.specs.declared.registers.RegsPpc.{RegsPpc};
ghost use Rattle.ppc_core.specs.inner.Fetch.{Fetches, IsOfWord};
ghost use Rattle.ppc_core.specs.Fetch.{places_of};

use big_memory::{Did, GATE_PAGE_END, Ram, host_code, in_gate_page, leave, refuse, stop};
use mix_bits::{Fault, FaultKind, Size};
use ppc_isa::RegsPpc;

/// How many instructions fit into memory from the end of the gate page on.
pub fn places(ram: &Ram) -> u32
    ensures { result ≡ places_of ram.now }
{
    ram.meets_invariant();
    (ram.len() - GATE_PAGE_END) / 4
}

/// Whether a word plainly can be fetched: its address is a multiple of four, from the end of the gate page on, and
/// in memory. With the two low bits on top, all this is one comparison.
#[inline(always)]
pub fn is_plain(pc: u32, ram: &Ram, places: u32) -> bool
    requires { places ≡ places_of ram.now }
    ensures aligned { OnTrue result (pc % 4 ≡ 0) }
    ensures outside { OnTrue result (gate_page_end ≤ pc) }
    ensures within { OnTrue result (pc + 4 ≤ length ram.now.bytes) }
{
    ram.meets_invariant();
    (pc / 4 + pc % 4 * 0x4000_0000).wrapping_sub(GATE_PAGE_END / 4) < places
}

/// The word at pc, which plainly can be fetched.
#[inline(always)]
#[tactic(auto, unfolding(ppc_integer::specs::Effects::stepped))]
pub fn plain_word(regs: &RegsPpc, ram: &Ram) -> u32
    requires aligned { regs.now.pc % 4 ≡ 0 }
    requires outside { gate_page_end ≤ regs.now.pc }
    requires within { regs.now.pc + 4 ≤ length ram.now.bytes }
    ensures { IsOfWord regs.now ram.now result }
{
    ram.read(regs.pc, Size::Four)
}

/// Fetches any word at pc: on Next it is the cell's detail. Elsewhere the step is done, as one that leaves or
/// stops.
#[cold]
#[inline(never)]
#[tactic(auto, unfolding(ppc_integer::specs::Effects::stepped))]
pub fn fetch(pc: u32, ram: &Ram, fault: &mut Fault) -> Did
    ensures { (r : RegsPpc) → r.pc ≡ pc → Fetches result fault.new r ram.now }
{
    if pc % 4 != 0 {
        stop::<RegsPpc>(fault, FaultKind::Odd, pc, pc)
    } else if in_gate_page(pc) {
        leave_or_stop(pc, fault)
    } else {
        match ram.load_long(pc) {
            Ok(word) => {
                fault.detail = word;
                Did::Next
            }
            Err(access) => refuse::<RegsPpc>(fault, pc, access),
        }
    }
}

/// Leaves for the host at the code address of one of its functions, or stops, where pc is in the gate
/// page.
fn leave_or_stop(pc: u32, fault: &mut Fault) -> Did
    ensures { (r : RegsPpc) (m : Memory) → r.pc ≡ pc → Does (at_gate_page_of r (host_code_of r.pc)) result fault.new r r m m }
{
    match host_code(pc) {
        Some(k) => leave::<RegsPpc>(fault, k),
        None => stop::<RegsPpc>(fault, FaultKind::GateFetch, pc, pc),
    }
}
