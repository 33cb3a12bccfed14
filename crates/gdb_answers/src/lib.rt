//! What a gdb server answers: the texts of its answers, from what gdb sees of a mixed machine. The 68K side is process 1,
//! and the PowerPC side process 2.
#![tactic(auto)]

mod answer;
mod answers;
mod descriptions;
mod laws;
mod parts;
mod registers;
mod stops;
mod threads;

pub use answer::Answer;
pub use answers::{append_answer, append_console};
pub use descriptions::description;
pub use laws::answer_laws;
pub use registers::shown;
pub use stops::{Reason, signal};
pub use threads::ThreadName;
