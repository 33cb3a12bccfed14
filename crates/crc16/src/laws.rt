ghost use Rattle.std.specs.Prelude.{◌≡◌, codes};
ghost use Rattle.crc16.specs.Checksum.{checksum_of};

/// The check value that is published of this check sum, that of nine digits. It does nothing: the clause is its point.
#[tactic(auto, unfolding(crate::specs::Checksum::shifted))]
pub fn checksum_law()
    ensures { checksum_of (codes "123456789") ≡ 0x31C3 }
{}
