// The host table: the functions in the order of their numbers, their traps, rows and imports. What a function does
// stands in `perform`.
ghost use Rattle.std.specs.Prelude.{◌≡◌, ◌<◌};
ghost use Rattle.toolbox.specs.Functions.{function_at};
ghost use Rattle.toolbox.specs.Table.{number_of, row};
ghost use Rattle.toolbox.specs.Traps.{IsReached};

use crate::table::Register::{A0, A1, D0, D1};
use crate::table::{FUNCTIONS, Import, NOWHERE, PpcResults, Row};

/// A function of the host table.
#[derive(Clone, Copy)]
pub enum Function {
    NewRoutineDescriptor,
    NewFatRoutineDescriptor,
    DisposeRoutineDescriptor,
    CallUniversalProc,
    NewPtr,
    NewPtrClear,
    DisposePtr,
    BlockMove,
    ExitToShell,
    PutByte,
    GetByte,
    PutBlock,
    AskDevice,
    EjectDevice,
    ExitWith,
    UnloadSeg,
}

impl Function {
    /// The function with this number.
    #[inline(always)]
    #[tactic(auto, using(crate::proofs::OneNumber::past_table))]
    pub fn at(index: u32) -> Function
        ensures { result ≡ function_at index }
    {
        if (index as usize) < FUNCTIONS {
            ROWS[index as usize].function
        } else {
            NOWHERE.function
        }
    }

    /// Its number.
    #[inline(always)]
    pub fn number(self) -> u8
        ensures is { result ≡ number_of self }
        ensures below { result < FUNCTIONS }
    {
        self as u8
    }

    /// Its row.
    #[inline(always)]
    pub fn row(self) -> Row
        ensures { result ≡ row self }
    {
        ROWS[self.number() as usize]
    }

    /// The function that a trap word reaches: the rows' traps as a match, which takes no walk at each trap.
    #[inline(always)]
    pub fn of_trap(word: u16) -> Option<Function>
        ensures { IsReached word result }
    {
        match word {
            0xA01F => Some(Function::DisposePtr),
            0xA02E => Some(Function::BlockMove),
            0xA11E => Some(Function::NewPtr),
            0xA31E => Some(Function::NewPtrClear),
            0xA9F1 => Some(Function::UnloadSeg),
            0xA9F4 => Some(Function::ExitToShell),
            0xAA80 => Some(Function::PutByte),
            0xAA81 => Some(Function::GetByte),
            0xAA82 => Some(Function::PutBlock),
            0xAA83 => Some(Function::AskDevice),
            0xAA84 => Some(Function::EjectDevice),
            0xAA85 => Some(Function::ExitWith),
            0xAA86 => Some(Function::NewRoutineDescriptor),
            0xAA87 => Some(Function::NewFatRoutineDescriptor),
            0xAA88 => Some(Function::DisposeRoutineDescriptor),
            _ => None,
        }
    }
}

/// The rows. UnloadSeg, which no PowerPC code reaches, has the last number.
pub static ROWS: [Row; FUNCTIONS] = [
    Row {
        function: Function::NewRoutineDescriptor,
        trap: Some(0xAA86),
        operands: (Some(A0), Some(D0), Some(D1)),
        results: (Some(A0), None),
        ppc_results: PpcResults::R3,
        sets_codes: false,
        pops: false,
    },
    Row {
        function: Function::NewFatRoutineDescriptor,
        trap: Some(0xAA87),
        operands: (Some(A0), Some(A1), Some(D0)),
        results: (Some(A0), None),
        ppc_results: PpcResults::R3,
        sets_codes: false,
        pops: false,
    },
    Row {
        function: Function::DisposeRoutineDescriptor,
        trap: Some(0xAA88),
        operands: (Some(A0), None, None),
        results: (Some(D0), None),
        ppc_results: PpcResults::R3,
        sets_codes: false,
        pops: false,
    },
    Row {
        function: Function::CallUniversalProc,
        trap: None,
        operands: (None, None, None),
        results: (None, None),
        ppc_results: PpcResults::Nothing,
        sets_codes: false,
        pops: false,
    },
    Row {
        function: Function::NewPtr,
        trap: Some(0xA11E),
        operands: (Some(D0), None, None),
        results: (Some(A0), Some(D0)),
        ppc_results: PpcResults::R3,
        sets_codes: true,
        pops: false,
    },
    Row {
        function: Function::NewPtrClear,
        trap: Some(0xA31E),
        operands: (Some(D0), None, None),
        results: (Some(A0), Some(D0)),
        ppc_results: PpcResults::R3,
        sets_codes: true,
        pops: false,
    },
    Row {
        function: Function::DisposePtr,
        trap: Some(0xA01F),
        operands: (Some(A0), None, None),
        results: (Some(D0), None),
        ppc_results: PpcResults::R3,
        sets_codes: true,
        pops: false,
    },
    Row {
        function: Function::BlockMove,
        trap: Some(0xA02E),
        operands: (Some(A0), Some(A1), Some(D0)),
        results: (Some(D0), None),
        ppc_results: PpcResults::R3,
        sets_codes: true,
        pops: false,
    },
    Row {
        function: Function::ExitToShell,
        trap: Some(0xA9F4),
        operands: (None, None, None),
        results: (None, None),
        ppc_results: PpcResults::Nothing,
        sets_codes: false,
        pops: false,
    },
    Row {
        function: Function::PutByte,
        trap: Some(0xAA80),
        operands: (Some(D0), None, None),
        results: (None, None),
        ppc_results: PpcResults::R3,
        sets_codes: false,
        pops: false,
    },
    Row {
        function: Function::GetByte,
        trap: Some(0xAA81),
        operands: (None, None, None),
        results: (Some(D0), None),
        ppc_results: PpcResults::R3,
        sets_codes: false,
        pops: false,
    },
    Row {
        function: Function::PutBlock,
        trap: Some(0xAA82),
        operands: (Some(A0), Some(D0), None),
        results: (None, None),
        ppc_results: PpcResults::R3,
        sets_codes: false,
        pops: false,
    },
    Row {
        function: Function::AskDevice,
        trap: Some(0xAA83),
        operands: (Some(D0), Some(D1), None),
        results: (Some(D0), Some(D1)),
        ppc_results: PpcResults::R3AndR4,
        sets_codes: false,
        pops: false,
    },
    Row {
        function: Function::EjectDevice,
        trap: Some(0xAA84),
        operands: (Some(D0), None, None),
        results: (Some(D0), None),
        ppc_results: PpcResults::R3,
        sets_codes: false,
        pops: false,
    },
    Row {
        function: Function::ExitWith,
        trap: Some(0xAA85),
        operands: (Some(D0), None, None),
        results: (None, None),
        ppc_results: PpcResults::Nothing,
        sets_codes: false,
        pops: false,
    },
    Row {
        function: Function::UnloadSeg,
        trap: Some(0xA9F1),
        operands: (None, None, None),
        results: (None, None),
        ppc_results: PpcResults::Nothing,
        sets_codes: false,
        pops: true,
    },
];

/// What each function is imported by, from the toolbox of the Power Macintosh or a library of this project's own.
pub static IMPORTS: [Import; FUNCTIONS] = [
    Some(("InterfaceLib", "NewRoutineDescriptor")),
    Some(("InterfaceLib", "NewFatRoutineDescriptor")),
    Some(("InterfaceLib", "DisposeRoutineDescriptor")),
    Some(("InterfaceLib", "CallUniversalProc")),
    Some(("InterfaceLib", "NewPtr")),
    Some(("InterfaceLib", "NewPtrClear")),
    Some(("InterfaceLib", "DisposePtr")),
    Some(("InterfaceLib", "BlockMove")),
    Some(("InterfaceLib", "ExitToShell")),
    Some(("HostLib", "PutByte")),
    Some(("HostLib", "GetByte")),
    Some(("HostLib", "PutBlock")),
    Some(("HostLib", "AskDevice")),
    Some(("HostLib", "EjectDevice")),
    Some(("HostLib", "ExitWith")),
    None,
];
