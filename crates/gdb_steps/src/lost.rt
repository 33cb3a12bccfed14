/// Why a walker could not go to another place of its run.
#[derive(Clone, Copy)]
pub enum Lost {
    /// There was no memory for a machine.
    NoMemory,
    /// A device did not answer again as it had answered before.
    Strayed,
}
