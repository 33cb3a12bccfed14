ghost use Rattle.std.specs.Prelude.{◌≡◌, ◌<◌};
ghost use Rattle.proc_info.specs.Codes.{size_code, size_at};

use mix_bits::Size;

/// The size with this number in a procInfo word.
pub fn size_numbered(code: u32) -> Size
    ensures { result ≡ size_at code }
{
    match code {
        0 => Size::Zero,
        1 => Size::One,
        2 => Size::Two,
        _ => Size::Four,
    }
}

/// A size's number in a procInfo word.
pub fn number_of(size: Size) -> u32
    ensures number { result ≡ size_code size }
    ensures below { result < 4 }
{
    match size {
        Size::Zero => 0,
        Size::One => 1,
        Size::Two => 2,
        Size::Four => 3,
    }
}
