/// How many slots a rack has at most.
pub const SLOTS: usize = 8;

/// How much of the outside a machine has used up.
#[derive(Clone, Copy)]
pub struct Used {
    /// How many bytes of the input it took.
    pub input: usize,
    /// How many asks reached a device.
    pub asks: usize,
    /// Which slots hold a device.
    pub held: [bool; SLOTS],
}
