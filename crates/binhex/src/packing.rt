// Bytes out of symbols that stand for six bits each.
ghost use Rattle.std.specs.Prelude.{◌≡◌, ◌+◌, ◌-◌, ◌*◌, ◌^◌, ◌<◌, ◌≤◌, IfOk, length};
ghost use Rattle.binhex.specs.Packing.{byte_at as byte_in, bytes_below, bytes_of};

use std::alloc::{AllocError, Global};

/// The bytes in the bits of symbols. Bits that make no whole byte are left over.
pub fn bytes(alloc: Global, symbols: &[u8]) -> Result<Vec<u8>, AllocError>
    ensures { IfOk result (λ bytes. bytes.items ≡ bytes_of symbols.now) }
{
    first_bytes(alloc, symbols, symbols.len() - (symbols.len() + 3) / 4)
}

/// The first bytes, so many.
fn first_bytes(alloc: Global, symbols: &[u8], count: usize) -> Result<Vec<u8>, AllocError>
    requires { 4 * count ≤ length symbols.now * 3 }
    ensures { IfOk result (λ bytes. bytes.items ≡ bytes_below symbols.now count) }
{
    let mut bytes = Vec::with_capacity(alloc, count)?;
    for j in 0..count {
        bytes.push(byte_at(symbols, j))?;
    }
    Ok(bytes)
}

/// The byte with a number.
fn byte_at(symbols: &[u8], j: usize) -> u8
    requires { 4 * (j + 1) ≤ length symbols.now * 3 }
    ensures { result ≡ byte_in symbols.now j }
{
    let first = j + j / 3;
    let bits = u32::from(symbols[first]) * 64 + u32::from(symbols[first + 1]);
    (bits / behind(j % 3) % 256) as u8
}

/// By what two symbols are divided for the byte that begins with so many of their bits, counted in twos.
fn behind(twos: usize) -> u32
    requires { twos < 3 }
    ensures is { result ≡ 4 ^ (2 - twos) }
    ensures some { 1 ≤ result }
{
    match twos {
        0 => 16,
        1 => 4,
        _ => 1,
    }
}
