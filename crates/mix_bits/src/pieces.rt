ghost use Rattle.std.specs.Prelude.{◌≡◌, ◌+◌, ◌≤◌, ◌++◌, length};

use arrayvec::ArrayVec;

/// Appends a piece to a list with room for it.
pub fn append<const N: usize>(list: &mut ArrayVec<u8, N>, piece: &[u8])
    requires { length list.old.items + length piece.now ≤ N }
    ensures is { list.new.items ≡ list.old.items ++ piece.now }
    ensures longer { length list.new.items ≡ length list.old.items + length piece.now }
{
    let _fits = list.try_extend_from_slice(piece);
}
