ghost use Rattle.std.specs.Prelude.{◌≡◌};
ghost use Rattle.gdb_session.specs.declared.broken.Broken.TheVariants.{NoMemory as no_memory};

use mix_bits::NoMemory as NoRoom;

/// Why a server broke off.
#[derive(Clone, Copy, Debug, PartialEq, Eq)]
pub enum Broken {
    /// There was no memory.
    NoMemory,
    /// The input failed.
    Input,
    /// The output failed.
    Output,
}

impl From<NoRoom> for Broken {
    ghost from_gives = { λ _ e. e ≡ no_memory };

    fn from(_: NoRoom) -> Self {
        Broken::NoMemory
    }
}
