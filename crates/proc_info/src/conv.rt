ghost use Rattle.std.specs.Prelude.{◌≡◌, ◌<◌};
ghost use Rattle.proc_info.specs.Codes.{conv_at, dispatch_of, is_dispatched, number_of, row as row_of, shape_by as shape_for, shape_of};
ghost use Rattle.proc_info.specs.CodesClauses.{conv_code};
ghost use Rattle.proc_info.specs.Routes.{route_of};

use super::bad_info::BadInfo;
use Dispatch::{D0, D1, Nowhere, OnStack};
use Route::{CStack, PascalStack, Registers};

/// A calling convention.
#[derive(Clone, Copy, Debug, PartialEq, Eq)]
pub enum Conv {
    /// Pascal: the callee removes its parameters from the stack.
    Pascal,
    /// C: the caller removes them.
    C,
    /// Parameters and result in registers of the 68K.
    Register,
    /// Pascal with a selector in D0.
    D0Pascal,
    /// C with a selector in D0.
    D0C,
    /// Pascal with a selector in D1.
    D1Pascal,
    /// Pascal with a selector on the stack, above the return address.
    StackPascal,
}

/// How a convention passes parameters and results; selectors aside.
#[derive(Clone, Copy)]
pub enum Route {
    /// Packed on the stack of the 68K, the first parameter highest and the room for the result above it. The callee
    /// removes the parameters.
    PascalStack,
    /// A long for each parameter on the stack, the first one lowest; the result in D0.
    CStack,
    /// In registers.
    Registers,
}

/// Where a convention passes a selector, which chooses among the routines of one descriptor.
#[derive(Clone, Copy)]
pub enum Dispatch {
    /// There is none.
    Nowhere,
    D0,
    D1,
    /// On the stack, above the return address.
    OnStack,
}

/// A convention, its number in bits 0 to 3, how it passes parameters and results, and where a selector.
type Row = (Conv, u32, Route, Dispatch);

/// The table of conventions.
static CONVENTIONS: [Row; 7] = [
    (Conv::Pascal, 0, PascalStack, Nowhere),
    (Conv::C, 1, CStack, Nowhere),
    (Conv::Register, 2, Registers, Nowhere),
    (Conv::D0Pascal, 8, PascalStack, D0),
    (Conv::D0C, 9, CStack, D0),
    (Conv::D1Pascal, 12, PascalStack, D1),
    (Conv::StackPascal, 14, PascalStack, OnStack),
];

/// What stands above the result's size in a procInfo word.
#[derive(Clone, Copy, Debug, PartialEq, Eq)]
pub enum Shape {
    /// Two bits for each parameter from bit 6 on.
    Stack,
    /// The selector's size in bits 6 and 7, two bits for each parameter from bit 8 on.
    Dispatched,
    /// The result's place in bits 6 to 10, five bits for each parameter from bit 11 on.
    Registers,
}

impl Conv {
    /// The convention with this number in bits 0 to 3: the rows' numbers as a match, which takes no walk at each call.
    pub fn at(code: u32) -> Result<Conv, BadInfo>
        ensures { result ≡ conv_at code }
    {
        match code {
            0 => Ok(Conv::Pascal),
            1 => Ok(Conv::C),
            2 => Ok(Conv::Register),
            8 => Ok(Conv::D0Pascal),
            9 => Ok(Conv::D0C),
            12 => Ok(Conv::D1Pascal),
            14 => Ok(Conv::StackPascal),
            _ => Err(BadInfo::Convention),
        }
    }

    /// Its place in the table.
    fn number(self) -> u8
        ensures is { result ≡ number_of self }
        ensures below { result < 7 }
    {
        self as u8
    }

    /// Its row.
    fn row(self) -> Row
        ensures { result ≡ row_of self }
    {
        CONVENTIONS[self.number() as usize]
    }

    /// The convention's number in bits 0 to 3.
    pub(crate) fn code(self) -> u32
        ensures number { result ≡ conv_code self }
        ensures below { result < 16 }
    {
        self.row().1
    }

    /// How it passes parameters and results.
    pub fn route(self) -> Route
        ensures { result ≡ route_of self }
    {
        self.row().2
    }

    /// Where it passes a selector.
    pub fn dispatch(self) -> Dispatch
        ensures { result ≡ dispatch_of self }
    {
        self.row().3
    }

    /// The shape of this convention's words.
    pub(crate) fn shape(self) -> Shape
        ensures { result ≡ shape_of self }
    {
        shape_by(self.route(), self.dispatch())
    }

    /// Whether a selector chooses among the routines of one descriptor.
    pub fn is_dispatched(self) -> bool
        ensures { result ≡ is_dispatched self }
    {
        match self.shape() {
            Shape::Stack => false,
            Shape::Dispatched => true,
            Shape::Registers => false,
        }
    }
}

/// The shape of words of a convention that passes its parameters and its selector so.
fn shape_by(route: Route, dispatch: Dispatch) -> Shape
    ensures { result ≡ shape_for route dispatch }
{
    match (route, dispatch) {
        (Registers, _) => Shape::Registers,
        (_, Nowhere) => Shape::Stack,
        _ => Shape::Dispatched,
    }
}
