/// The operands of a call. Those that a function does not have are 0.
#[derive(Clone, Copy)]
pub struct Operands {
    pub first: u32,
    pub second: u32,
    pub third: u32,
}

/// The results of a call. Those that a function does not have are 0.
#[derive(Clone, Copy)]
pub struct Results {
    pub first: u32,
    pub second: u32,
}
