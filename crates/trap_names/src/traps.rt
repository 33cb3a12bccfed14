// The names of traps.
ghost use Rattle.std.specs.Prelude.{◌≡◌, map, option_map};
ghost use Rattle.trap_names.specs.Traps.{name_in, name_of, trap_number as number_of_trap};

/// A trap word and the name of what it calls.
type Row = (u16, &'static str);

/// Traps of the Operating System and of the Toolbox (Inside Macintosh, its lists of trap words).
static TRAPS: [Row; 156] = [
    (0xA000, "Open"),
    (0xA001, "Close"),
    (0xA002, "Read"),
    (0xA003, "Write"),
    (0xA004, "Control"),
    (0xA005, "Status"),
    (0xA006, "KillIO"),
    (0xA007, "GetVolInfo"),
    (0xA008, "Create"),
    (0xA009, "Delete"),
    (0xA00A, "OpenRF"),
    (0xA00B, "Rename"),
    (0xA00C, "GetFileInfo"),
    (0xA00D, "SetFileInfo"),
    (0xA00E, "UnmountVol"),
    (0xA00F, "MountVol"),
    (0xA010, "Allocate"),
    (0xA011, "GetEOF"),
    (0xA012, "SetEOF"),
    (0xA013, "FlushVol"),
    (0xA014, "GetVol"),
    (0xA015, "SetVol"),
    (0xA017, "Eject"),
    (0xA018, "GetFPos"),
    (0xA019, "InitZone"),
    (0xA01B, "SetZone"),
    (0xA01C, "FreeMem"),
    (0xA01F, "DisposePtr"),
    (0xA020, "SetPtrSize"),
    (0xA021, "GetPtrSize"),
    (0xA023, "DisposeHandle"),
    (0xA024, "SetHandleSize"),
    (0xA025, "GetHandleSize"),
    (0xA027, "ReallocateHandle"),
    (0xA029, "HLock"),
    (0xA02A, "HUnlock"),
    (0xA02B, "EmptyHandle"),
    (0xA02C, "InitApplZone"),
    (0xA02D, "SetApplLimit"),
    (0xA02E, "BlockMove"),
    (0xA02F, "PostEvent"),
    (0xA030, "OSEventAvail"),
    (0xA031, "GetOSEvent"),
    (0xA032, "FlushEvents"),
    (0xA033, "VInstall"),
    (0xA034, "VRemove"),
    (0xA036, "MoreMasters"),
    (0xA039, "ReadDateTime"),
    (0xA03B, "Delay"),
    (0xA03C, "CmpString"),
    (0xA040, "ReserveMem"),
    (0xA044, "SetFPos"),
    (0xA045, "FlushFile"),
    (0xA049, "HPurge"),
    (0xA04A, "HNoPurge"),
    (0xA04B, "SetGrowZone"),
    (0xA04C, "CompactMem"),
    (0xA04D, "PurgeMem"),
    (0xA055, "StripAddress"),
    (0xA060, "HFSDispatch"),
    (0xA063, "MaxApplZone"),
    (0xA064, "MoveHHi"),
    (0xA069, "HGetState"),
    (0xA06A, "HSetState"),
    (0xA090, "SysEnvirons"),
    (0xA11A, "GetZone"),
    (0xA11D, "MaxMem"),
    (0xA11E, "NewPtr"),
    (0xA122, "NewHandle"),
    (0xA126, "HandleZone"),
    (0xA128, "RecoverHandle"),
    (0xA146, "GetTrapAddress"),
    (0xA148, "PtrZone"),
    (0xA1AD, "Gestalt"),
    (0xA850, "InitCursor"),
    (0xA851, "SetCursor"),
    (0xA852, "HideCursor"),
    (0xA853, "ShowCursor"),
    (0xA860, "WaitNextEvent"),
    (0xA861, "Random"),
    (0xA86E, "InitGraf"),
    (0xA86F, "OpenPort"),
    (0xA870, "LocalToGlobal"),
    (0xA871, "GlobalToLocal"),
    (0xA873, "SetPort"),
    (0xA874, "GetPort"),
    (0xA883, "DrawChar"),
    (0xA884, "DrawString"),
    (0xA891, "LineTo"),
    (0xA893, "MoveTo"),
    (0xA8A1, "FrameRect"),
    (0xA8A2, "PaintRect"),
    (0xA8A3, "EraseRect"),
    (0xA8A4, "InvertRect"),
    (0xA8A7, "SetRect"),
    (0xA8A8, "OffsetRect"),
    (0xA8A9, "InsetRect"),
    (0xA8EC, "CopyBits"),
    (0xA8FE, "InitFonts"),
    (0xA912, "InitWindows"),
    (0xA913, "NewWindow"),
    (0xA914, "DisposeWindow"),
    (0xA915, "ShowWindow"),
    (0xA916, "HideWindow"),
    (0xA91F, "SelectWindow"),
    (0xA922, "BeginUpdate"),
    (0xA923, "EndUpdate"),
    (0xA924, "FrontWindow"),
    (0xA925, "DragWindow"),
    (0xA92C, "FindWindow"),
    (0xA930, "InitMenus"),
    (0xA931, "NewMenu"),
    (0xA935, "InsertMenu"),
    (0xA937, "DrawMenuBar"),
    (0xA938, "HiliteMenu"),
    (0xA93D, "MenuSelect"),
    (0xA93E, "MenuKey"),
    (0xA94D, "AppendResMenu"),
    (0xA970, "GetNextEvent"),
    (0xA971, "EventAvail"),
    (0xA972, "GetMouse"),
    (0xA973, "StillDown"),
    (0xA974, "Button"),
    (0xA975, "TickCount"),
    (0xA976, "GetKeys"),
    (0xA97B, "InitDialogs"),
    (0xA97C, "GetNewDialog"),
    (0xA985, "Alert"),
    (0xA991, "ModalDialog"),
    (0xA995, "InitResources"),
    (0xA997, "OpenResFile"),
    (0xA99A, "CloseResFile"),
    (0xA9A0, "GetResource"),
    (0xA9A1, "GetNamedResource"),
    (0xA9A2, "LoadResource"),
    (0xA9A3, "ReleaseResource"),
    (0xA9B4, "SystemTask"),
    (0xA9B6, "OpenDeskAcc"),
    (0xA9BC, "GetPicture"),
    (0xA9BD, "GetNewWindow"),
    (0xA9BF, "GetMenu"),
    (0xA9C0, "GetNewMBar"),
    (0xA9C8, "SysBeep"),
    (0xA9C9, "SysError"),
    (0xA9CC, "TEInit"),
    (0xA9EB, "FP68K"),
    (0xA9EC, "Elems68K"),
    (0xA9F0, "LoadSeg"),
    (0xA9F1, "UnloadSeg"),
    (0xA9F2, "Launch"),
    (0xA9F4, "ExitToShell"),
    (0xA9FF, "Debugger"),
    (0xAA59, "MixedModeDispatch"),
    (0xAA5A, "CodeFragmentDispatch"),
    (0xAAFE, "MixedModeMagic"),
    (0xABFF, "DebugStr"),
];

/// The name of what a trap word calls, where it is one of these.
#[tactic(auto, unfolding(crate::specs::Traps::trap_rows))]
pub fn trap_name(word: u16) -> Option<&'static str>
    ensures { option_map (λ name. name.now) result ≡ name_of word }
{
    find_name(&TRAPS, trap_number(word))
}

/// The name in the first of some rows whose trap has a number.
fn find_name(rows: &[Row], number: u16) -> Option<&'static str>
    ensures { option_map (λ name. name.now) result ≡ name_in (map (λ row. (row.0, row.1.now)) rows.now) number }
{
    for row in rows {
        if trap_number(row.0) == number {
            return Some(row.1);
        }
    }
    None
}

/// A trap word without its flags: the lowest bits that say what is called, and whose it is.
fn trap_number(word: u16) -> u16
    ensures { result ≡ number_of_trap word }
{
    if word / 0x0800 % 2 == 1 {
        word / 0x0800 * 0x0800 + word % 0x0400
    } else {
        word / 0x0800 * 0x0800 + word % 0x0100
    }
}
