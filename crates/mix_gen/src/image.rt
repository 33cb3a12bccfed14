// The sample image, part by part.
ghost use Rattle.std.specs.Prelude.{◌≡◌, ◌+◌, ◌≤◌, IfOk, length};
ghost use Rattle.byteorder.specs.Endian.{big_bytes};
ghost use Rattle.big_memory.specs.Lists.{put};
ghost use Rattle.mix_gen.specs.Sample.{sample_files, sample_image};

use byteorder::{BigEndian, ByteOrder};
use mix_bits::NoMemory;
use mix_load::{FileBytes, Files};
use std::alloc::Global;

/// How many bytes the image has.
const SAMPLE_BYTES: usize = 236;

/// The main part, in 68K code. N and D are put into it.
const MAIN_PART: [u8; 32] = [
    0x2C, 0x3C, 0x00, 0x00, 0x00, 0x00, // move.l #N,d6
    0x7A, 0x00, // moveq #0,d5
    0x2F, 0x3C, 0x00, 0x00, 0x00, 0x00, // again: move.l #D,-(a7)
    0x4E, 0xB9, 0x00, 0x01, 0x00, 0x80, // jsr descriptor
    0x58, 0x8F, // addq.l #4,a7
    0xDA, 0x80, // add.l d0,d5
    0x53, 0x86, // subq.l #1,d6
    0x66, 0xEC, // bne again
    0x20, 0x05, // move.l d5,d0
    0xAA, 0x85, // ExitWith
];

/// Where N and D stand.
const CALLS_AT: usize = 0x02;

const DEPTH_AT: usize = 0x0A;

/// The routine's 68K half.
const HALF_M68: [u8; 26] = [
    0x20, 0x2F, 0x00, 0x04, // move.l 4(a7),d0
    0x53, 0x80, // subq.l #1,d0
    0x67, 0x0E, // beq one
    0x2F, 0x00, // move.l d0,-(a7)
    0x4E, 0xB9, 0x00, 0x01, 0x00, 0x80, // jsr descriptor
    0x58, 0x8F, // addq.l #4,a7
    0x52, 0x80, // addq.l #1,d0
    0x4E, 0x75, // rts
    0x70, 0x01, // one: moveq #1,d0
    0x4E, 0x75, // rts
];

/// The routine descriptor of the PowerPC half.
const DESCRIPTOR: [u8; 32] = [
    0xAA, 0xFE, 0x07, 0x00, // MixedModeMagic, version 7
    0x00, 0x00, 0x00, 0x00, // no selector
    0x00, 0x00, 0x00, 0x00, // one record
    0x00, 0x00, 0x00, 0xF1, // procInfo: C, a long result, a long
    0x00, 0x01, 0x00, 0x00, // PowerPC code
    0x00, 0x01, 0x00, 0xA0, // its transition vector
    0x00, 0x00, 0x00, 0x00, 0x00, 0x00, 0x00, 0x00, // no selector value
];

/// The transition vector of the PowerPC half.
const VECTOR: [u8; 8] = [
    0x00, 0x01, 0x00, 0xA8, // the code
    0x00, 0x00, 0x00, 0x00, // no table of contents
];

/// The routine's PowerPC half.
const HALF_PPC: [u8; 68] = [
    0x34, 0x63, 0xFF, 0xFF, // addic. r3,r3,-1
    0x40, 0x82, 0x00, 0x0C, // bne deeper
    0x38, 0x60, 0x00, 0x01, // li r3,1
    0x4E, 0x80, 0x00, 0x20, // blr
    0x7C, 0x08, 0x02, 0xA6, // deeper: mflr r0
    0x90, 0x01, 0x00, 0x08, // stw r0,8(r1)
    0x94, 0x21, 0xFF, 0xC0, // stwu r1,-64(r1)
    0x7C, 0x65, 0x1B, 0x78, // mr r5,r3
    0x3C, 0x60, 0x00, 0x01, // lis r3,1
    0x60, 0x63, 0x00, 0x20, // ori r3,r3,32
    0x38, 0x80, 0x00, 0xF1, // li r4,241
    0x48, 0x00, 0x18, 0x0F, // bla CallUniversalProc
    0x38, 0x63, 0x00, 0x01, // addi r3,r3,1
    0x38, 0x21, 0x00, 0x40, // addi r1,r1,64
    0x80, 0x01, 0x00, 0x08, // lwz r0,8(r1)
    0x7C, 0x08, 0x03, 0xA6, // mtlr r0
    0x4E, 0x80, 0x00, 0x20, // blr
];

/// The sample image as a flat file: its main part calls a routine of depth `depth` `n` times, 68K and PowerPC
/// code call each other. With `n` from 1 and `depth` from 1 to 256 the exit code is `n` times `depth`.
pub fn sample(alloc: Global, n: u32, depth: u32) -> Result<Files, NoMemory>
    ensures { IfOk result (λ files. files ≡ sample_files n depth) }
{
    let bytes = image_of(n, depth).to_vec(alloc)?;
    Ok(Files {
        flat: Some(FileBytes::of(bytes)),
        rsrc: None,
        pef: None,
    })
}

/// The bytes of the image.
fn image_of(n: u32, depth: u32) -> [u8; SAMPLE_BYTES]
    ensures { result ≡ sample_image n depth }
{
    let mut image = [0; SAMPLE_BYTES];
    put_part(&mut image, 0x00, &MAIN_PART);
    put_long(&mut image, CALLS_AT, n);
    put_long(&mut image, DEPTH_AT, depth);
    put_part(&mut image, 0x20, &HALF_M68);
    put_part(&mut image, 0x80, &DESCRIPTOR);
    put_part(&mut image, 0xA0, &VECTOR);
    put_part(&mut image, 0xA8, &HALF_PPC);
    image
}

/// Puts a part at its place.
fn put_part(image: &mut [u8], at: usize, part: &[u8])
    requires { at + length part.now ≤ length image.old }
    ensures { image.new ≡ put at part.now image.old }
{
    image[at..at + part.len()].copy_from_slice(part);
}

/// Puts a big-endian long at its place.
fn put_long(image: &mut [u8], at: usize, value: u32)
    requires { at + 4 ≤ length image.old }
    ensures { image.new ≡ put at (big_bytes 4 value) image.old }
{
    BigEndian::write_u32(&mut image[at..at + 4], value);
}
