//! A mode switch between 68K and PowerPC code: what a caller of either instruction set wants from a call
//! and passes to it, what a callee is handed, and what its return gives back (Inside Macintosh: PowerPC System
//! Software, chapters 1 and 2). It knows registers and memory, and no chain of suspended callers.
//!
//! Each call answers the definition's value, and one that is refused has changed nothing.
#![tactic(auto)]

mod callee;
mod code_68k;
mod code_ppc;
mod descriptor;
mod laws;
mod passed;
mod records;
mod returned;
mod wanted;

pub use callee::{below, deliver, wanted_sp};
pub use code_68k::wants_68k;
pub use code_ppc::wants_ppc;
pub use laws::switch_laws;
pub use passed::{Entry, Passed, pass};
pub use returned::give_back;
pub use wanted::{Call, Target, Wanted};
