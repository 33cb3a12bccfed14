//! Why mixedrun refuses a script of the debugger, or a text to assemble: the number of the first line that is refused, the
//! line, and the rule that it breaks.
//!
//! `explain_script` and `explain_text` write that every line is taken exactly where mix_top and mix_text take the script or
//! the text; else they name the line that those name, and the first rule that the definitions find for its bytes.
#![tactic(auto)]

mod assembler;
mod few;
mod kind;
mod lines;
mod operands;
mod place;
mod report;
mod rule;
mod script;

pub use assembler::explain_text;
pub use report::Report;
pub use rule::Rule;
pub use script::explain_script;
