//! Packets of gdb's Remote Serial Protocol: read from a stream of bytes, and written, with numbers and bytes in hexadecimal.
#![tactic(auto)]

mod decoder;
mod encoder;
mod event;
mod hex;
mod laws;
mod number;
mod stage;
#[cfg(test)]
mod tests;

pub use decoder::Decoder;
pub use encoder::append_packet;
pub use event::Event;
pub use hex::{
    append_hex, append_register, append_said, hex_byte, hex_digit, hex_value, read_number,
};
pub use laws::{hexadecimal_laws, stream_laws};
pub use number::append_number;
