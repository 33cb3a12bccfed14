use mix_engine::Machine;

/// How gdb is served.
#[derive(Clone, Copy)]
pub struct Settings {
    /// Whether lines of calls across come to the console.
    pub is_traced: bool,
    /// How many machines are kept at the most to go back from, beside the first.
    pub keep: u32,
}

/// What gdb is served with.
#[derive(Drop)]
pub struct Start {
    /// A machine before its first step.
    pub machine: Machine,
    /// The whole input of its program.
    pub input: Vec<u8>,
    pub settings: Settings,
}
