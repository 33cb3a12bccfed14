// What the host table says of a function; the rows stand in `function`.
use crate::function::Function;
use big_memory::HOST_FUNCTIONS;

/// How many functions there are: those that PowerPC code reaches, and UnloadSeg.
pub const FUNCTIONS: usize = HOST_FUNCTIONS as usize + 1;

/// A register of 68K code.
#[derive(Clone, Copy)]
pub enum Register {
    D0,
    D1,
    A0,
    A1,
}

/// The registers of PowerPC code that get results.
#[derive(Clone, Copy)]
pub enum PpcResults {
    Nothing,
    R3,
    R3AndR4,
}

/// What the table says of a function.
#[derive(Clone, Copy)]
pub struct Row {
    pub function: Function,
    /// Macintosh system traps, and $AA80 to $AA88, which are this project's own.
    pub trap: Option<u16>,
    /// The registers of 68K code. An operand that is not there is 0.
    pub operands: (Option<Register>, Option<Register>, Option<Register>),
    pub results: (Option<Register>, Option<Register>),
    pub ppc_results: PpcResults,
    /// Whether the trap sets the condition codes.
    pub sets_codes: bool,
    /// Whether its operand is a long on the stack, which the trap removes.
    pub pops: bool,
}

/// The library and the name by which containers import a function.
pub type Import = Option<(&'static str, &'static str)>;

/// What code outside the table is told as.
pub const NOWHERE: Row = Row {
    function: Function::UnloadSeg,
    trap: None,
    operands: (None, None, None),
    results: (None, None),
    ppc_results: PpcResults::Nothing,
    sets_codes: false,
    pops: false,
};
