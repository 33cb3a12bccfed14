use dev_rack::Answer;
use mix_bits::Fault;

/// How a host call went.
#[derive(Clone, Copy, Debug, PartialEq, Eq)]
pub enum HostOut {
    /// It is done, and the program goes on.
    Done,
    /// It is done: a device was to be asked, and this came of it.
    Asked {
        slot: u32,
        word: u32,
        answer: Answer,
    },
    /// The call goes on into other code: a universal pointer, and the procInfo of the call.
    Cross {
        pointer: u32,
        info: u32,
    },
    /// The program ends with this code.
    Exit(u32),
    /// The call was refused an access.
    Stop(Fault),
    /// The input failed.
    ReadFault,
    /// The output failed.
    OutFault,
}
