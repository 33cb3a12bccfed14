ghost use Rattle.std.specs.Prelude.{◌≡◌, ◌+◌, ◌^◌, ◌≤◌, ◌<◌, IfSome, OnSome, is_some, length};
ghost use Rattle.mix_bits.specs.declared.file.TheConstants.{MOST_BYTES};
ghost use Rattle.mix_load.specs.JumpTable.{HasTable};
ghost use Rattle.mix_load.specs.Segments.{a5_of, has_table, header_of, segments_start, table_start};

use mix_bits::{long_at, round_up};
use switch_frame::PROGRAM_START;

/// What CODE 0 says of the world of A5: its sizes in bytes, and the jump table in it.
#[derive(Clone, Copy)]
pub struct CodeHeader {
    pub above: u32,
    pub below: u32,
    pub table_len: u32,
    /// Counted from A5.
    pub table_offset: u32,
}

/// The four longs of CODE 0.
pub fn read_header(code0: &[u8]) -> CodeHeader
    requires { 16 ≤ length code0.now }
    ensures { result ≡ header_of code0.now }
{
    CodeHeader {
        above: long_at(code0, 0),
        below: long_at(code0, 4),
        table_len: long_at(code0, 8),
        table_offset: long_at(code0, 12),
    }
}

/// The longs of CODE 0, if it has them and a table that lies in the world above A5.
pub fn table_header(code0: &[u8]) -> Option<CodeHeader>
    requires { length code0.now ≤ MOST_BYTES }
    ensures is { is_some result ≡ has_table code0.now }
    ensures header { IfSome result (λ h. h ≡ header_of code0.now) }
    ensures facts { OnSome result (HasTable code0.now) }
    ensures room { IfSome result (λ h. h.table_offset + h.table_len < 2 ^ 32) }
{
    if code0.len() < 16 {
        return None;
    }
    let h = read_header(code0);
    let lies_above = 0 < h.table_len
        && h.table_len % 8 == 0
        && 16 + h.table_len as u64 <= code0.len() as u64
        && h.table_offset as u64 + h.table_len as u64 <= h.above as u64;
    if lies_above { Some(h) } else { None }
}

/// Where A5 points.
pub fn a5_of(h: CodeHeader) -> u64
    ensures is { result ≡ a5_of h }
    ensures few { result ≤ 2 ^ 33 }
{
    PROGRAM_START as u64 + round_up(h.below as u64, 16)
}

/// Where the segments begin.
pub fn segments_start(h: CodeHeader) -> u64
    ensures is { result ≡ segments_start h }
    ensures few { result ≤ 2 ^ 34 }
{
    a5_of(h) + round_up(h.above as u64, 16)
}

/// Where the jump table stands.
pub fn table_start(h: CodeHeader) -> u64
    ensures is { result ≡ table_start h }
    ensures few { result ≤ 2 ^ 34 }
{
    a5_of(h) + h.table_offset as u64
}
