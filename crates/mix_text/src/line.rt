// The bytes of one line.
ghost use Rattle.std.specs.Prelude.{◌≡◌, ◌≤◌, Ok, Err, IfErr, IfOk, length};
ghost use Rattle.mix_text.specs.Assembling.{IsGiven, IsInstruction, long_bytes, word_bytes as word_bytes_of};
ghost use Rattle.mix_text.specs.inner.Parts.{GivesBytes, SpellsBytes, reason_m68 as reason_m68_of, reason_ppc as reason_ppc_of};

use super::lines::{address_in, is_silent};
use super::refused::Reason;
use arrayvec::ArrayVec;
use asm_m68::{AsmError as ErrorM68, assemble68, known68};
use asm_ppc::{AsmError as ErrorPpc, assemble_ppc, known_ppc};
use mix_bits::Isa;

/// How many bytes an instruction has at most.
const MOST_BYTES: usize = 10;

/// The bytes of an instruction.
pub type Bytes = ArrayVec<u8, MOST_BYTES>;

/// The bytes that a line gives at its address, or why it is refused.
pub fn assemble_line(set: Isa, line: &[u8], at: u32) -> Result<Bytes, Reason>
    ensures bytes { IfOk result (λ b. IsGiven set line.now at (Ok b.items)) }
    ensures refused { IfErr result (λ reason. IsGiven set line.now at (Err reason)) }
{
    if is_silent(line) {
        return Ok(ArrayVec::new());
    }
    match address_in(line) {
        None => assemble_instruction(set, line, at),
        Some(address) => {
            if address == at {
                assemble_instruction(set, &line[10..], at)
            } else {
                Err(Reason::Address)
            }
        }
    }
}

/// The bytes of an instruction whose text stands alone.
fn assemble_instruction(set: Isa, line: &[u8], at: u32) -> Result<Bytes, Reason>
    ensures bytes { IfOk result (λ b. IsInstruction set line.now at (Ok b.items)) }
    ensures refused { IfErr result (λ reason. IsInstruction set line.now at (Err reason)) }
{
    match set {
        Isa::M68 => match assemble68(line, at) {
            Ok(code) => Ok(bytes_of(&code.words[..code.count as usize])),
            Err(error) => Err(reason_m68(error)),
        },
        Isa::Ppc => match assemble_ppc(line, at) {
            Ok(word) => Ok(bytes_of_long(word)),
            Err(error) => Err(reason_ppc(error)),
        },
    }
}

/// The bytes of a line that is known to give some, at its address.
pub fn known_line(set: Isa, line: &[u8], at: u32) -> Bytes
    requires { GivesBytes set line.now at }
    ensures { IsGiven set line.now at (Ok result.items) }
{
    if is_silent(line) {
        return ArrayVec::new();
    }
    match address_in(line) {
        None => known_instruction(set, line, at),
        Some(_) => known_instruction(set, &line[10..], at),
    }
}

/// The bytes of an instruction whose text stands alone and is known to give some.
fn known_instruction(set: Isa, line: &[u8], at: u32) -> Bytes
    requires { SpellsBytes set line.now at }
    ensures { IsInstruction set line.now at (Ok result.items) }
{
    match set {
        Isa::M68 => {
            let code = known68(line, at);
            bytes_of(&code.words[..code.count as usize])
        }
        Isa::Ppc => bytes_of_long(known_ppc(line, at)),
    }
}

/// Why a 68K line is refused.
fn reason_m68(error: ErrorM68) -> Reason
    ensures { result ≡ reason_m68_of error }
{
    match error {
        ErrorM68::Name => Reason::Name,
        ErrorM68::Operands => Reason::Operands,
    }
}

/// Why a PowerPC line is refused.
fn reason_ppc(error: ErrorPpc) -> Reason
    ensures { result ≡ reason_ppc_of error }
{
    match error {
        ErrorPpc::Name => Reason::Name,
        ErrorPpc::Operands => Reason::Operands,
    }
}

/// The bytes of words, the high one of each first.
fn bytes_of(words: &[u16]) -> Bytes
    requires { length words.now ≤ 5 }
    ensures { result.items ≡ word_bytes_of words.now }
{
    let mut bytes = ArrayVec::new();
    for word in words {
        bytes.push((*word / 0x100) as u8);
        bytes.push((*word % 0x100) as u8);
    }
    bytes
}

/// Those of a long.
fn bytes_of_long(long: u32) -> Bytes
    ensures { result.items ≡ long_bytes long }
{
    bytes_of(&[(long / 0x1_0000) as u16, (long % 0x1_0000) as u16])
}
