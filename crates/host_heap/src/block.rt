/// A range of addresses that is in use, in bytes.
#[derive(Clone, Copy)]
pub struct Block {
    pub address: u32,
    pub size: u32,
}
