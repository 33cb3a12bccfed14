// Lines that are no rows of a text, and the calls that assemble a text at once.
use asm_m68::reassembled68;
use asm_ppc::{AsmError, assemble_ppc, reassembled};
use std::test::Fail;

#[test]
fn long_lines(rt: HostRuntime) -> Result<(), Fail> {
    let mut line = vec![in rt.alloc(); b'7'; 1_000_000]?;
    assert!(rt; assemble_ppc(&line, 0) == Err(AsmError::Name));
    assert!(rt; line.len() == 1_000_000);
    line[0] = b'b';
    line[1] = b' ';
    assert!(rt; assemble_ppc(&line, 0) == Err(AsmError::Operands));
    Ok(())
}

#[test]
fn texts_are_taken_back(rt: HostRuntime) {
    asm_m68::asm_laws();
    asm_ppc::asm_laws();
    match reassembled68(&[0xAA80], 0x10000) {
        Ok(code) => assert_eq!(rt; code.words, [0xAA80, 0, 0, 0, 0]),
        Err(_) => assert!(rt; false),
    }
    for word in [0, 0x4800_0005, 0x4082_00B8, 0xFFFF_FFFF] {
        assert!(rt; reassembled(word, 0x1_0000) == Ok(word));
    }
}
