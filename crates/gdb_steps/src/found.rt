use crate::halt::Halt;

/// A place at which a walk back stops.
#[derive(Clone, Copy)]
pub struct Found {
    /// How many steps of the run lead to it.
    pub steps: u64,
    /// Why it stops there.
    pub halt: Halt,
}
