// Where the values of a call stand.
ghost use Rattle.std.specs.Prelude.{◌≡◌, ◌+◌, ◌*◌, ◌≤◌, ◌<◌, length};
ghost use Rattle.args_m68.specs.PlacesClauses.{IsThere};
ghost use Rattle.args_m68.specs.Places.{flag_numbered as flag_numbered_lem, next_base as next_base_lem, params_bytes as params_bytes_lem, place_numbered as place_numbered_lem, place_of, result_bytes as result_bytes_lem, result_place as result_place_lem, selector_place as selector_place_lem, selector_width as selector_width_lem, width as width_lem, widths as widths_lem};

use mix_bits::Size;
use proc_info::{Conv, Dispatch, Param, Route};

/// A condition bit.
#[derive(Clone, Copy)]
pub enum Flag {
    Carry,
    Overflow,
    IsZero,
    Negative,
    Extend,
}

/// Where a value stands.
#[derive(Clone, Copy)]
pub enum Place {
    /// In memory, so many bytes above A7.
    Stack(u32),
    /// In the low bytes of a data register.
    Data(u8),
    /// In the low bytes of an address register.
    Address(u8),
    /// In a condition bit.
    Condition(Flag),
}

/// How many bytes a value of this size takes on a Pascal stack.
pub fn width(size: Size) -> u32
    ensures value { result ≡ width_lem size }
    ensures small { result ≤ 4 }
{
    match size {
        Size::Zero => 0,
        Size::One => 2,
        Size::Two => 2,
        Size::Four => 4,
    }
}

/// How many bytes the parameters take on a Pascal stack.
pub fn widths(params: &[Param]) -> u32
    requires { length params.now ≤ 13 }
    ensures value { result ≡ widths_lem params.now }
    ensures small { result ≤ 4 * length params.now }
{
    match params {
        [] => 0,
        [first, rest @ ..] => width(first.size) + widths(rest),
    }
}

/// The condition bit with this number in a procInfo.
fn flag_numbered(code: u8) -> Flag
    ensures { result ≡ flag_numbered_lem code }
{
    match code {
        16 => Flag::Carry,
        17 => Flag::Overflow,
        18 => Flag::IsZero,
        19 => Flag::Negative,
        _ => Flag::Extend,
    }
}

/// The register or condition bit with this number in a procInfo.
fn place_numbered(code: u8) -> Place
    ensures place { result ≡ place_numbered_lem code }
    ensures there { IsThere result }
{
    if code < 4 {
        Place::Data(code)
    } else if code < 8 {
        Place::Address(code - 4)
    } else if code < 12 {
        Place::Data(code - 4)
    } else if code < 15 {
        Place::Address(code - 8)
    } else {
        Place::Condition(flag_numbered(code))
    }
}

/// The place of a parameter. The lowest of this and the later ones begins `base` bytes above the return
/// address, and the later ones take `later` bytes.
#[inline(always)]
pub fn place_for(route: Route, base: u32, param: &Param, later: u32) -> Place
    requires base { base ≤ 1000 }
    requires later { later ≤ 1000 }
    ensures place { result ≡ place_of route base param.now later }
    ensures there { IsThere result }
{
    match route {
        Route::PascalStack => Place::Stack(base + later),
        Route::CStack => Place::Stack(base + (4 - param.size.bytes())),
        Route::Registers => place_numbered(param.reg),
    }
}

/// Where the lowest of the later parameters begins.
#[inline(always)]
pub fn next_base(route: Route, base: u32) -> u32
    requires { base ≤ 1000 }
    ensures value { result ≡ next_base_lem route base }
    ensures near { result ≤ base + 4 }
{
    match route {
        Route::PascalStack => base,
        Route::CStack => base + 4,
        Route::Registers => base,
    }
}

/// The place of a selector. Only dispatched conventions have one.
pub fn selector_place(conv: Conv) -> Place
    ensures place { result ≡ selector_place_lem conv }
    ensures there { IsThere result }
{
    match conv.dispatch() {
        Dispatch::Nowhere => Place::Data(0),
        Dispatch::D0 => Place::Data(0),
        Dispatch::D1 => Place::Data(1),
        Dispatch::OnStack => Place::Stack(4),
    }
}

/// How far a selector on the stack pushes the parameters up.
pub fn selector_width(conv: Conv, size: Size) -> u32
    ensures value { result ≡ selector_width_lem conv size }
    ensures small { result ≤ 4 }
{
    match conv.dispatch() {
        Dispatch::OnStack => width(size),
        Dispatch::Nowhere | Dispatch::D0 | Dispatch::D1 => 0,
    }
}

/// The place of a result once the return has removed what it removes.
pub fn result_place(route: Route, code: u8) -> Place
    ensures place { result ≡ result_place_lem route code }
    ensures there { IsThere result }
{
    match route {
        Route::PascalStack => Place::Stack(0),
        Route::CStack => Place::Data(0),
        Route::Registers => place_numbered(code),
    }
}

/// How many bytes the parameters take on the stack.
pub fn params_bytes(route: Route, params: &[Param]) -> u32
    requires { length params.now ≤ 13 }
    ensures value { result ≡ params_bytes_lem route params.now }
    ensures small { result ≤ 4 * length params.now }
{
    match route {
        Route::PascalStack => widths(params),
        Route::CStack => 4 * params.len() as u32,
        Route::Registers => 0,
    }
}

/// How many bytes the room for a result takes on the stack.
pub fn result_bytes(route: Route, size: Size) -> u32
    ensures value { result ≡ result_bytes_lem route size }
    ensures small { result ≤ 4 }
{
    match route {
        Route::PascalStack => width(size),
        Route::CStack => 0,
        Route::Registers => 0,
    }
}
