// The errors that host functions give, as 32 bits.

/// -1: the input is at its end.
pub const AT_END: u32 = 0xFFFF_FFFF;

/// -21: the slot holds no device.
pub const NO_SLOT: u32 = 0xFFFF_FFEB;

/// -36: the device failed.
pub const DEVICE_FAILED: u32 = 0xFFFF_FFDC;

/// -108: the heap or the journal has no room.
pub const NO_ROOM: u32 = 0xFFFF_FF94;

/// -111: no block begins at the address.
pub const NO_BLOCK: u32 = 0xFFFF_FF91;
