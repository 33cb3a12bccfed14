ghost use Rattle.std.specs.Prelude.{◌≡◌, ◌^◌, ◌≤◌};
ghost use Rattle.std.specs.Result.{result_err};
ghost use Rattle.mix_load.specs.ForkImage.{too_large};

use crate::error::LoadError;
use big_memory::Ram;
use mix_bits::round_up;

/// What is loaded so far.
#[derive(Drop)]
pub struct Image {
    pub ram: Ram,
    /// The address behind its last byte.
    pub end: u32,
    /// Where its 68K code starts, 0 where it has none.
    pub entry: u32,
    /// Its main vector, 0 where it has none.
    pub vector: u32,
    /// The A5 of its 68K code, 0 without a fork.
    pub a5: u32,
}

/// Tests that a program which ends at an address leaves the stack its room.
pub fn test_end(end: u64, floor: u32) -> Result<(), LoadError>
    requires { end ≤ 2 ^ 60 }
    ensures { result_err result ≡ too_large floor end }
{
    if (floor as u64) < round_up(end, 16) {
        return Err(LoadError::TooLarge(end));
    }
    Ok(())
}
