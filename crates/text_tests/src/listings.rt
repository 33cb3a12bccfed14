// Listings that are assembled where they begin.
use big_memory::Ram;
use mix_bits::Isa;
use mix_io::MemSink;
use mix_text::{assembly_laws, check_text, list, put_text};
use std::alloc::Global;
use std::process::Abort;
use std::test::Fail;

/// How many bytes of memory there are.
const RAM: u32 = 0x2_0000;

/// A set, an address, how many lines at most, the bytes there, and how many of them are listed.
type Row<'a> = (Isa, u32, u32, &'a [u8], usize);

/// The bytes that the listing of a row gives.
fn back(rt: &impl Abort, alloc: Global, row: &Row) -> Result<MemSink, Fail> {
    let (set, at, count, bytes, _) = *row;
    let mut ram = Ram::new(alloc, RAM)?;
    assert!(rt; at as usize + bytes.len() <= ram.len() as usize);
    ram.fix(at, bytes);
    let mut text = MemSink::new(alloc, 4096, Vec::new(alloc))?;
    assert!(rt; list(&ram, set, at, count, &mut text).is_ok());
    let lines = text.held();
    assert!(rt; lines.len() <= 4096);
    let mut out = MemSink::new(alloc, 4096, Vec::new(alloc))?;
    match check_text(set, lines, at) {
        Ok(()) => assert!(rt; put_text(set, lines, at, &mut out).is_ok()),
        Err(_) => assert!(rt; false),
    }
    Ok(out)
}

#[test]
fn listings_come_back(rt: HostRuntime) -> Result<(), Fail> {
    let alloc = rt.alloc();
    assembly_laws();
    let rows: [Row; 7] = [
        // moveq, two A-traps, divs.l, lea with a scale, bra.w
        (
            Isa::M68,
            0x1_0000,
            6,
            b"\x70\x48\xAA\x80\xA9\xF4\x4C\x7C\x08\x01\x00\x00\x00\x07\x41\xF0\x14\xFC\x60\x00\xFF\xEA",
            22,
        ),
        // lea with an index word that it has not: its first word alone, then what the second one is
        (
            Isa::M68,
            0x1_0000,
            3,
            b"\x41\xF0\x01\x00\x4E\x71\x4E\x75",
            6,
        ),
        // from an odd address on
        (Isa::M68, 0x1_0001, 2, b"\x61\x02\x4E\x71\x4E\x75", 4),
        // the last instruction has a word behind the end of memory
        (Isa::M68, 0x1_FFFA, 9, b"\x4E\x71\x20\x3C\x00\x01", 2),
        (Isa::M68, 0x1_FFFF, 9, b"\x4E", 0),
        // addi, bla, a word without a row, bdnz
        (
            Isa::Ppc,
            0x1_0000,
            4,
            b"\x38\x60\x00\x48\x48\x00\x18\x0F\x00\x00\x00\x00\x42\x00\xFF\xF4",
            16,
        ),
        // three bytes are left
        (Isa::Ppc, 0x1_FFF9, 9, b"\x4E\x80\x00\x20\x60\x00\x00", 4),
    ];
    for row in &rows {
        let out = back(&rt, alloc, row)?;
        let (_, at, _, bytes, listed) = *row;
        assert!(rt; listed <= bytes.len());
        assert_eq!(rt; out.held(), &bytes[..listed], "{at}");
    }
    Ok(())
}
