use super::area::Area;
use call_trace::fault_name;
use mix_bits::Fault;
use std::alloc::{AllocError, Global};

/// The text of an answer that is a fault, with what it has changed all the same: nothing, if all is
/// well.
pub fn told(
    alloc: Global,
    fault: &Fault,
    is_same: bool,
    before: &Area,
    after: &Area,
) -> Result<String, AllocError> {
    let name = fault_name(fault.kind);
    let (pc, detail, also) = (fault.pc, fault.detail, fault.also);
    let registers = kept(is_same);
    let mut text = format!(in alloc; " fault {name} {pc:08X} {detail:08X} {also:08X}{registers}")?;
    before.tell(after, &mut text)?;
    Ok(text)
}

/// What is said of a register file that is to be as before.
pub fn kept(is_same: bool) -> &'static str {
    if is_same { "" } else { " registers changed" }
}
