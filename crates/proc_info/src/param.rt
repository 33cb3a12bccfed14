use mix_bits::Size;

/// A parameter.
#[derive(Clone, Copy, Debug, PartialEq, Eq)]
pub struct Param {
    pub size: Size,
    /// Register convention: D0 to D3 are 0 to 3, A0 to A3 are 4 to 7. Else 0.
    pub reg: u8,
}

impl Param {
    /// What stands where no parameter is.
    pub const NONE: Param = Param {
        size: Size::Zero,
        reg: 0,
    };
}
