ghost use Rattle.std.specs.Prelude.{◌≡◌, ◌+◌, ◌≤◌, length, IfOk};
ghost use Rattle.mix_bits.specs.declared.file.TheConstants.{MOST_BYTES};
ghost use Rattle.rsrc_fork.specs.Header.{areas_of, list_of};
ghost use Rattle.rsrc_fork.specs.inner.Header.{IsWithin};

use crate::error::RsrcError;
use mix_bits::{long_at, word_at};

/// Where the data and the map stand, as places in the file. Each ends before its `_end`.
#[derive(Clone, Copy)]
pub struct Areas {
    pub data_start: u32,
    pub data_end: u32,
    pub map_start: u32,
    pub map_end: u32,
}

/// The areas that the header names.
pub fn areas_of(bytes: &[u8]) -> Result<Areas, RsrcError>
    requires { length bytes.now ≤ MOST_BYTES }
    ensures is { result ≡ areas_of bytes.now }
    ensures within { IfOk result (λ areas. IsWithin areas (length bytes.now)) }
{
    let len = bytes.len() as u32;
    if len < 16 {
        return Err(RsrcError::Short(len));
    }
    let (data_start, map_start) = (long_at(bytes, 0), long_at(bytes, 4));
    let map_len = long_at(bytes, 12);
    let data_end = data_start as u64 + long_at(bytes, 8) as u64;
    let map_end = map_start as u64 + map_len as u64;
    let limit = len as u64;
    if limit < data_end || limit < map_end || map_len < 28 {
        return Err(RsrcError::BadOffset(0));
    }
    let areas = Areas {
        data_start,
        data_end: data_end as u32,
        map_start,
        map_end: map_end as u32,
    };
    if areas.data_start.max(areas.map_start) < areas.data_end.min(areas.map_end) {
        return Err(RsrcError::Overlap);
    }
    Ok(areas)
}

/// Where the type list stands, whose first word is in the map.
pub fn list_of(bytes: &[u8], areas: Areas) -> Result<u32, RsrcError>
    requires { IsWithin areas (length bytes.now) }
    ensures is { result ≡ list_of bytes.now areas }
    ensures within { IfOk result (λ list. list + 2 ≤ areas.map_end) }
{
    let field = areas.map_start + 24;
    let list = areas.map_start + word_at(bytes, field) as u32;
    if areas.map_end < list + 2 {
        return Err(RsrcError::BadOffset(field));
    }
    Ok(list)
}
