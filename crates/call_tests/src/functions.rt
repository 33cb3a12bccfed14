// The numbers of the host's functions, by the names of its table, and the two columns by which they are reached.
use crate::equal::equal;
use std::process::Abort;
use toolbox::{import_index, trap_index};

pub const NEW_ROUTINE_DESCRIPTOR: u32 = 0;

pub const NEW_FAT_ROUTINE_DESCRIPTOR: u32 = 1;

pub const DISPOSE_ROUTINE_DESCRIPTOR: u32 = 2;

pub const CALL_UNIVERSAL_PROC: u32 = 3;

pub const NEW_PTR: u32 = 4;

pub const NEW_PTR_CLEAR: u32 = 5;

pub const DISPOSE_PTR: u32 = 6;

pub const BLOCK_MOVE: u32 = 7;

pub const EXIT_TO_SHELL: u32 = 8;

pub const PUT_BYTE: u32 = 9;

pub const GET_BYTE: u32 = 10;

pub const PUT_BLOCK: u32 = 11;

pub const ASK_DEVICE: u32 = 12;

pub const EJECT_DEVICE: u32 = 13;

pub const EXIT_WITH: u32 = 14;

pub const UNLOAD_SEG: u32 = 15;

/// Each trap word reaches the function with this number.
fn are_traps(rt: &impl Abort, rows: &[(u16, u32)]) {
    for (word, index) in rows {
        equal(rt, *word, trap_index(*word), Some(*index));
    }
}

/// No function is reached by these words.
fn are_no_traps(rt: &impl Abort, words: &[u16]) {
    for word in words {
        equal(rt, *word, trap_index(*word), None);
    }
}

#[test]
fn functions_by_their_traps(rt: HostRuntime) {
    are_traps(
        &rt,
        &[
            (0xAA86, NEW_ROUTINE_DESCRIPTOR),
            (0xAA87, NEW_FAT_ROUTINE_DESCRIPTOR),
            (0xAA88, DISPOSE_ROUTINE_DESCRIPTOR),
            (0xA11E, NEW_PTR),
            (0xA31E, NEW_PTR_CLEAR),
            (0xA01F, DISPOSE_PTR),
            (0xA02E, BLOCK_MOVE),
            (0xA9F4, EXIT_TO_SHELL),
            (0xAA80, PUT_BYTE),
            (0xAA81, GET_BYTE),
            (0xAA82, PUT_BLOCK),
            (0xAA83, ASK_DEVICE),
            (0xAA84, EJECT_DEVICE),
            (0xAA85, EXIT_WITH),
            (0xA9F1, UNLOAD_SEG),
        ],
    );
    are_no_traps(
        &rt,
        &[
            0xA000, 0xA01E, 0xA020, 0xA02F, 0xA11F, 0xA31F, 0xA9F0, 0xA9F2, 0xAA7F, 0xAA89, 0xAAFE,
            0x4E71,
        ],
    );
}

/// Each name reaches the function with this number in one library, and none in the other.
fn are_imports(rt: &impl Abort, library: &[u8], other: &[u8], rows: &[(&str, u32)]) {
    for (name, index) in rows {
        let found = import_index(library, name.as_bytes());
        equal(rt, *name, found, Some(*index));
        equal(rt, *name, import_index(other, name.as_bytes()), None);
    }
}

/// No function is reached by these libraries and names.
fn are_no_imports(rt: &impl Abort, rows: &[(&str, &str)]) {
    for (library, name) in rows {
        let found = import_index(library.as_bytes(), name.as_bytes());
        equal(rt, *name, found, None);
    }
}

#[test]
fn functions_by_their_imports(rt: HostRuntime) {
    are_imports(
        &rt,
        b"InterfaceLib",
        b"HostLib",
        &[
            ("NewRoutineDescriptor", NEW_ROUTINE_DESCRIPTOR),
            ("NewFatRoutineDescriptor", NEW_FAT_ROUTINE_DESCRIPTOR),
            ("DisposeRoutineDescriptor", DISPOSE_ROUTINE_DESCRIPTOR),
            ("CallUniversalProc", CALL_UNIVERSAL_PROC),
            ("NewPtr", NEW_PTR),
            ("NewPtrClear", NEW_PTR_CLEAR),
            ("DisposePtr", DISPOSE_PTR),
            ("BlockMove", BLOCK_MOVE),
            ("ExitToShell", EXIT_TO_SHELL),
        ],
    );
    are_imports(
        &rt,
        b"HostLib",
        b"InterfaceLib",
        &[
            ("PutByte", PUT_BYTE),
            ("GetByte", GET_BYTE),
            ("PutBlock", PUT_BLOCK),
            ("AskDevice", ASK_DEVICE),
            ("EjectDevice", EJECT_DEVICE),
            ("ExitWith", EXIT_WITH),
        ],
    );
    are_no_imports(
        &rt,
        &[
            ("InterfaceLib", "NewPtrClea"),
            ("InterfaceLib", "NewPtrClear "),
            ("InterfaceLib", "newptr"),
            ("InterfaceLib", "UnloadSeg"),
            ("InterfaceLib", ""),
            ("", "NewPtr"),
            ("InterfaceLi", "NewPtr"),
            ("MathLib", "NewPtr"),
        ],
    );
}
