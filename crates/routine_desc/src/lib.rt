//! Routine descriptors of the Mixed Mode Manager: the records that tell of what instruction set a routine is, and how
//! it is called (Inside Macintosh: PowerPC System Software, chapter 2). It reads one or refuses it, chooses among its
//! records, and makes those of one or two records.
#![tactic(auto)]

mod choice;
mod flags;
mod laws;
mod making;
mod record;
mod records;
mod signed;

pub use choice::{choose, choose_among};
pub use flags::RoutineFlags;
pub use laws::desc_laws;
pub use making::build;
pub use record::{BadDesc, Desc, MIXED_MODE_MAGIC, Rec};
pub use records::{count_records, read_all, read_desc};
pub use signed::Signed;
