//! The check sum of MacBinary's headers and of each part of a BinHex file: the CRC of CCITT's polynomial, as XMODEM has
//! it.
//!
//! Sources: RFC 1741, 'MIME Content Type for BinHex Encoded Files' (1994), with its format of BinHex 4.0; the MacBinary
//! II standard (1987).
#![tactic(auto)]

mod laws;
mod sum;

pub use laws::checksum_law;
pub use sum::{checksum, with_byte};
