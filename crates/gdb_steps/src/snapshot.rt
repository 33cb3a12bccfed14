// A machine that is kept.
use crate::used::Used;
use mix_io::MemKeep;

/// The image of a machine after so many steps, and how much of the outside it had used up.
#[derive(Drop)]
pub struct Snapshot {
    pub steps: u64,
    pub used: Used,
    /// Kept by the empty name.
    pub image: MemKeep,
}
