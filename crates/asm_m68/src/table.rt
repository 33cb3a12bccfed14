// The table of names, one part a letter.
ghost use Rattle.std.specs.Prelude.{◌≡◌, map};
ghost use Rattle.std.specs.Option.{is_some};
ghost use Rattle.m68_text.specs.Listed.{is_name};
ghost use Rattle.asm_m68.specs.laws.Table.{form_by as form_by_of, form_of as form_of_name, found_in, rows_a, rows_b, rows_c, rows_d, rows_e, rows_j, rows_l, rows_m, rows_n, rows_o, rows_p, rows_r, rows_s, rows_t, rows_u};

use super::form::Choice::{DataAddress, FirstData, FirstWord, SecondCodes, SecondData};
use super::form::Form::{self, Always, Chosen, Data, Far, Near, Registers};
use super::form::Place::{Both, First, Nowhere, Second, UpperFirst, UpperSecond};

/// A name and its form.
type Row = (&'static str, Form);

static NAMES_A: [Row; 30] = [
    ("andi.b", Always(Second, 0x0200)),
    ("andi.w", Always(Second, 0x0240)),
    ("andi.l", Always(Second, 0x0280)),
    ("addi.b", Always(Second, 0x0600)),
    ("addi.w", Always(Second, 0x0640)),
    ("addi.l", Always(Second, 0x0680)),
    ("andi", Always(Nowhere, 0x023C)),
    ("addq.b", Always(UpperFirst, 0x5000)),
    ("addq.w", Always(UpperFirst, 0x5040)),
    ("addq.l", Always(UpperFirst, 0x5080)),
    (
        "and.b",
        Chosen(SecondData, UpperSecond, 0xC000, UpperFirst, 0xC100),
    ),
    (
        "and.w",
        Chosen(SecondData, UpperSecond, 0xC040, UpperFirst, 0xC140),
    ),
    (
        "and.l",
        Chosen(SecondData, UpperSecond, 0xC080, UpperFirst, 0xC180),
    ),
    (
        "add.b",
        Chosen(SecondData, UpperSecond, 0xD000, UpperFirst, 0xD100),
    ),
    (
        "add.w",
        Chosen(SecondData, UpperSecond, 0xD040, UpperFirst, 0xD140),
    ),
    (
        "add.l",
        Chosen(SecondData, UpperSecond, 0xD080, UpperFirst, 0xD180),
    ),
    (
        "abcd",
        Chosen(FirstData, UpperSecond, 0xC100, UpperSecond, 0xC0E8),
    ),
    ("adda.w", Always(UpperSecond, 0xD0C0)),
    ("adda.l", Always(UpperSecond, 0xD1C0)),
    (
        "addx.b",
        Chosen(FirstData, UpperSecond, 0xD100, UpperSecond, 0xD0E8),
    ),
    (
        "addx.w",
        Chosen(FirstData, UpperSecond, 0xD140, UpperSecond, 0xD128),
    ),
    (
        "addx.l",
        Chosen(FirstData, UpperSecond, 0xD180, UpperSecond, 0xD168),
    ),
    (
        "asl.b",
        Chosen(FirstData, UpperFirst, 0xE120, UpperFirst, 0xE100),
    ),
    (
        "asl.w",
        Chosen(FirstData, UpperFirst, 0xE160, UpperFirst, 0xE140),
    ),
    (
        "asl.l",
        Chosen(FirstData, UpperFirst, 0xE1A0, UpperFirst, 0xE180),
    ),
    ("asl", Always(First, 0xE1C0)),
    (
        "asr.b",
        Chosen(FirstData, UpperFirst, 0xE020, UpperFirst, 0xE000),
    ),
    (
        "asr.w",
        Chosen(FirstData, UpperFirst, 0xE060, UpperFirst, 0xE040),
    ),
    (
        "asr.l",
        Chosen(FirstData, UpperFirst, 0xE0A0, UpperFirst, 0xE080),
    ),
    ("asr", Always(First, 0xE0C0)),
];

static NAMES_B: [Row; 52] = [
    (
        "btst",
        Chosen(FirstData, UpperFirst, 0x0100, Second, 0x0800),
    ),
    (
        "bchg",
        Chosen(FirstData, UpperFirst, 0x0140, Second, 0x0840),
    ),
    (
        "bclr",
        Chosen(FirstData, UpperFirst, 0x0180, Second, 0x0880),
    ),
    (
        "bset",
        Chosen(FirstData, UpperFirst, 0x01C0, Second, 0x08C0),
    ),
    ("bra.b", Near(0x6000)),
    ("bra.w", Always(Nowhere, 0x6000)),
    ("bra.l", Far(0x60FF)),
    ("bsr.b", Near(0x6100)),
    ("bsr.w", Always(Nowhere, 0x6100)),
    ("bsr.l", Far(0x61FF)),
    ("bhi.b", Near(0x6200)),
    ("bhi.w", Always(Nowhere, 0x6200)),
    ("bhi.l", Far(0x62FF)),
    ("bls.b", Near(0x6300)),
    ("bls.w", Always(Nowhere, 0x6300)),
    ("bls.l", Far(0x63FF)),
    ("bcc.b", Near(0x6400)),
    ("bcc.w", Always(Nowhere, 0x6400)),
    ("bcc.l", Far(0x64FF)),
    ("bcs.b", Near(0x6500)),
    ("bcs.w", Always(Nowhere, 0x6500)),
    ("bcs.l", Far(0x65FF)),
    ("bne.b", Near(0x6600)),
    ("bne.w", Always(Nowhere, 0x6600)),
    ("bne.l", Far(0x66FF)),
    ("beq.b", Near(0x6700)),
    ("beq.w", Always(Nowhere, 0x6700)),
    ("beq.l", Far(0x67FF)),
    ("bvc.b", Near(0x6800)),
    ("bvc.w", Always(Nowhere, 0x6800)),
    ("bvc.l", Far(0x68FF)),
    ("bvs.b", Near(0x6900)),
    ("bvs.w", Always(Nowhere, 0x6900)),
    ("bvs.l", Far(0x69FF)),
    ("bpl.b", Near(0x6A00)),
    ("bpl.w", Always(Nowhere, 0x6A00)),
    ("bpl.l", Far(0x6AFF)),
    ("bmi.b", Near(0x6B00)),
    ("bmi.w", Always(Nowhere, 0x6B00)),
    ("bmi.l", Far(0x6BFF)),
    ("bge.b", Near(0x6C00)),
    ("bge.w", Always(Nowhere, 0x6C00)),
    ("bge.l", Far(0x6CFF)),
    ("blt.b", Near(0x6D00)),
    ("blt.w", Always(Nowhere, 0x6D00)),
    ("blt.l", Far(0x6DFF)),
    ("bgt.b", Near(0x6E00)),
    ("bgt.w", Always(Nowhere, 0x6E00)),
    ("bgt.l", Far(0x6EFF)),
    ("ble.b", Near(0x6F00)),
    ("ble.w", Always(Nowhere, 0x6F00)),
    ("ble.l", Far(0x6FFF)),
];

static NAMES_C: [Row; 15] = [
    ("cmpi.b", Always(Second, 0x0C00)),
    ("cmpi.w", Always(Second, 0x0C40)),
    ("cmpi.l", Always(Second, 0x0C80)),
    ("clr.b", Always(First, 0x4200)),
    ("clr.w", Always(First, 0x4240)),
    ("clr.l", Always(First, 0x4280)),
    ("chk", Always(UpperSecond, 0x4180)),
    ("cmpa.w", Always(UpperSecond, 0xB0C0)),
    ("cmpa.l", Always(UpperSecond, 0xB1C0)),
    ("cmp.b", Always(UpperSecond, 0xB000)),
    ("cmp.w", Always(UpperSecond, 0xB040)),
    ("cmp.l", Always(UpperSecond, 0xB080)),
    ("cmpm.b", Always(UpperSecond, 0xB0F0)),
    ("cmpm.w", Always(UpperSecond, 0xB130)),
    ("cmpm.l", Always(UpperSecond, 0xB170)),
];

static NAMES_D: [Row; 21] = [
    ("divu.l", Registers(0x4C40, 0x0000)),
    ("divs.l", Registers(0x4C40, 0x0800)),
    ("dbt", Always(First, 0x50C8)),
    ("dbf", Always(First, 0x51C8)),
    ("dbhi", Always(First, 0x52C8)),
    ("dbls", Always(First, 0x53C8)),
    ("dbcc", Always(First, 0x54C8)),
    ("dbcs", Always(First, 0x55C8)),
    ("dbne", Always(First, 0x56C8)),
    ("dbeq", Always(First, 0x57C8)),
    ("dbvc", Always(First, 0x58C8)),
    ("dbvs", Always(First, 0x59C8)),
    ("dbpl", Always(First, 0x5AC8)),
    ("dbmi", Always(First, 0x5BC8)),
    ("dbge", Always(First, 0x5CC8)),
    ("dblt", Always(First, 0x5DC8)),
    ("dbgt", Always(First, 0x5EC8)),
    ("dble", Always(First, 0x5FC8)),
    ("divu", Always(UpperSecond, 0x80C0)),
    ("divs", Always(UpperSecond, 0x81C0)),
    ("dc.w", Data),
];

static NAMES_E: [Row; 11] = [
    ("eori.b", Always(Second, 0x0A00)),
    ("eori.w", Always(Second, 0x0A40)),
    ("eori.l", Always(Second, 0x0A80)),
    ("eori", Always(Nowhere, 0x0A3C)),
    ("ext.w", Always(First, 0x4880)),
    ("ext.l", Always(First, 0x48C0)),
    ("extb.l", Always(First, 0x49C0)),
    ("eor.b", Always(UpperFirst, 0xB100)),
    ("eor.w", Always(UpperFirst, 0xB140)),
    ("eor.l", Always(UpperFirst, 0xB180)),
    (
        "exg",
        Chosen(DataAddress, UpperFirst, 0xC180, UpperFirst, 0xC140),
    ),
];

static NAMES_J: [Row; 2] = [
    ("jsr", Always(First, 0x4E80)),
    ("jmp", Always(First, 0x4EC0)),
];

static NAMES_L: [Row; 11] = [
    ("link", Always(First, 0x4E48)),
    ("link.l", Always(First, 0x4800)),
    ("lea", Always(UpperSecond, 0x41C0)),
    (
        "lsl.b",
        Chosen(FirstData, UpperFirst, 0xE128, UpperFirst, 0xE108),
    ),
    (
        "lsl.w",
        Chosen(FirstData, UpperFirst, 0xE168, UpperFirst, 0xE148),
    ),
    (
        "lsl.l",
        Chosen(FirstData, UpperFirst, 0xE1A8, UpperFirst, 0xE188),
    ),
    ("lsl", Always(First, 0xE3C0)),
    (
        "lsr.b",
        Chosen(FirstData, UpperFirst, 0xE028, UpperFirst, 0xE008),
    ),
    (
        "lsr.w",
        Chosen(FirstData, UpperFirst, 0xE068, UpperFirst, 0xE048),
    ),
    (
        "lsr.l",
        Chosen(FirstData, UpperFirst, 0xE0A8, UpperFirst, 0xE088),
    ),
    ("lsr", Always(First, 0xE2C0)),
];

static NAMES_M: [Row; 15] = [
    (
        "movep.w",
        Chosen(SecondData, UpperSecond, 0x00E0, UpperFirst, 0x0160),
    ),
    (
        "movep.l",
        Chosen(SecondData, UpperSecond, 0x0120, UpperFirst, 0x01A0),
    ),
    ("move.b", Always(Both, 0x1000)),
    ("move.w", Always(Both, 0x3000)),
    ("move.l", Always(Both, 0x2000)),
    ("movea.w", Always(UpperSecond, 0x3040)),
    ("movea.l", Always(UpperSecond, 0x2040)),
    ("move", Chosen(SecondCodes, First, 0x44C0, Second, 0x40C0)),
    ("movem.w", Chosen(FirstWord, Second, 0x4880, First, 0x4C80)),
    ("movem.l", Chosen(FirstWord, Second, 0x48C0, First, 0x4CC0)),
    ("mulu.l", Registers(0x4C00, 0x0000)),
    ("muls.l", Registers(0x4C00, 0x0800)),
    ("moveq", Always(UpperSecond, 0x7000)),
    ("mulu", Always(UpperSecond, 0xC0C0)),
    ("muls", Always(UpperSecond, 0xC1C0)),
];

static NAMES_N: [Row; 11] = [
    ("negx.b", Always(First, 0x4000)),
    ("negx.w", Always(First, 0x4040)),
    ("negx.l", Always(First, 0x4080)),
    ("neg.b", Always(First, 0x4400)),
    ("neg.w", Always(First, 0x4440)),
    ("neg.l", Always(First, 0x4480)),
    ("not.b", Always(First, 0x4600)),
    ("not.w", Always(First, 0x4640)),
    ("not.l", Always(First, 0x4680)),
    ("nbcd", Always(First, 0x4800)),
    ("nop", Always(Nowhere, 0x4E71)),
];

static NAMES_O: [Row; 7] = [
    ("ori.b", Always(Second, 0x0000)),
    ("ori.w", Always(Second, 0x0040)),
    ("ori.l", Always(Second, 0x0080)),
    ("ori", Always(Nowhere, 0x003C)),
    (
        "or.b",
        Chosen(SecondData, UpperSecond, 0x8000, UpperFirst, 0x8100),
    ),
    (
        "or.w",
        Chosen(SecondData, UpperSecond, 0x8040, UpperFirst, 0x8140),
    ),
    (
        "or.l",
        Chosen(SecondData, UpperSecond, 0x8080, UpperFirst, 0x8180),
    ),
];

static NAMES_P: [Row; 1] = [("pea", Always(First, 0x4840))];

static NAMES_R: [Row; 19] = [
    ("rtd", Always(Nowhere, 0x4E74)),
    ("rts", Always(Nowhere, 0x4E75)),
    ("rtr", Always(Nowhere, 0x4E77)),
    (
        "roxl.b",
        Chosen(FirstData, UpperFirst, 0xE130, UpperFirst, 0xE110),
    ),
    (
        "roxl.w",
        Chosen(FirstData, UpperFirst, 0xE170, UpperFirst, 0xE150),
    ),
    (
        "roxl.l",
        Chosen(FirstData, UpperFirst, 0xE1B0, UpperFirst, 0xE190),
    ),
    ("roxl", Always(First, 0xE5C0)),
    (
        "roxr.b",
        Chosen(FirstData, UpperFirst, 0xE030, UpperFirst, 0xE010),
    ),
    (
        "roxr.w",
        Chosen(FirstData, UpperFirst, 0xE070, UpperFirst, 0xE050),
    ),
    (
        "roxr.l",
        Chosen(FirstData, UpperFirst, 0xE0B0, UpperFirst, 0xE090),
    ),
    ("roxr", Always(First, 0xE4C0)),
    (
        "rol.b",
        Chosen(FirstData, UpperFirst, 0xE138, UpperFirst, 0xE118),
    ),
    (
        "rol.w",
        Chosen(FirstData, UpperFirst, 0xE178, UpperFirst, 0xE158),
    ),
    (
        "rol.l",
        Chosen(FirstData, UpperFirst, 0xE1B8, UpperFirst, 0xE198),
    ),
    ("rol", Always(First, 0xE7C0)),
    (
        "ror.b",
        Chosen(FirstData, UpperFirst, 0xE038, UpperFirst, 0xE018),
    ),
    (
        "ror.w",
        Chosen(FirstData, UpperFirst, 0xE078, UpperFirst, 0xE058),
    ),
    (
        "ror.l",
        Chosen(FirstData, UpperFirst, 0xE0B8, UpperFirst, 0xE098),
    ),
    ("ror", Always(First, 0xE6C0)),
];

static NAMES_S: [Row; 32] = [
    ("subi.b", Always(Second, 0x0400)),
    ("subi.w", Always(Second, 0x0440)),
    ("subi.l", Always(Second, 0x0480)),
    ("swap", Always(First, 0x4840)),
    ("subq.b", Always(UpperFirst, 0x5100)),
    ("subq.w", Always(UpperFirst, 0x5140)),
    ("subq.l", Always(UpperFirst, 0x5180)),
    ("st", Always(First, 0x50C0)),
    ("sf", Always(First, 0x51C0)),
    ("shi", Always(First, 0x52C0)),
    ("sls", Always(First, 0x53C0)),
    ("scc", Always(First, 0x54C0)),
    ("scs", Always(First, 0x55C0)),
    ("sne", Always(First, 0x56C0)),
    ("seq", Always(First, 0x57C0)),
    ("svc", Always(First, 0x58C0)),
    ("svs", Always(First, 0x59C0)),
    ("spl", Always(First, 0x5AC0)),
    ("smi", Always(First, 0x5BC0)),
    ("sge", Always(First, 0x5CC0)),
    ("slt", Always(First, 0x5DC0)),
    ("sgt", Always(First, 0x5EC0)),
    ("sle", Always(First, 0x5FC0)),
    (
        "sub.b",
        Chosen(SecondData, UpperSecond, 0x9000, UpperFirst, 0x9100),
    ),
    (
        "sub.w",
        Chosen(SecondData, UpperSecond, 0x9040, UpperFirst, 0x9140),
    ),
    (
        "sub.l",
        Chosen(SecondData, UpperSecond, 0x9080, UpperFirst, 0x9180),
    ),
    (
        "sbcd",
        Chosen(FirstData, UpperSecond, 0x8100, UpperSecond, 0x80E8),
    ),
    ("suba.w", Always(UpperSecond, 0x90C0)),
    ("suba.l", Always(UpperSecond, 0x91C0)),
    (
        "subx.b",
        Chosen(FirstData, UpperSecond, 0x9100, UpperSecond, 0x90E8),
    ),
    (
        "subx.w",
        Chosen(FirstData, UpperSecond, 0x9140, UpperSecond, 0x9128),
    ),
    (
        "subx.l",
        Chosen(FirstData, UpperSecond, 0x9180, UpperSecond, 0x9168),
    ),
];

static NAMES_T: [Row; 6] = [
    ("tst.b", Always(First, 0x4A00)),
    ("tst.w", Always(First, 0x4A40)),
    ("tst.l", Always(First, 0x4A80)),
    ("tas", Always(First, 0x4AC0)),
    ("trap", Always(First, 0x4E40)),
    ("trapv", Always(Nowhere, 0x4E76)),
];

static NAMES_U: [Row; 1] = [("unlk", Always(First, 0x4E50))];

#[tactic(auto, unfolding(crate::specs::laws::Table::rows_a))]
fn form_in_a(name: &[u8]) -> Option<Form>
    ensures { result ≡ found_in rows_a name.now }
{
    find_in(&NAMES_A, name)
}

#[tactic(auto, unfolding(crate::specs::laws::Table::rows_b))]
fn form_in_b(name: &[u8]) -> Option<Form>
    ensures { result ≡ found_in rows_b name.now }
{
    find_in(&NAMES_B, name)
}

#[tactic(auto, unfolding(crate::specs::laws::Table::rows_c))]
fn form_in_c(name: &[u8]) -> Option<Form>
    ensures { result ≡ found_in rows_c name.now }
{
    find_in(&NAMES_C, name)
}

#[tactic(auto, unfolding(crate::specs::laws::Table::rows_d))]
fn form_in_d(name: &[u8]) -> Option<Form>
    ensures { result ≡ found_in rows_d name.now }
{
    find_in(&NAMES_D, name)
}

#[tactic(auto, unfolding(crate::specs::laws::Table::rows_e))]
fn form_in_e(name: &[u8]) -> Option<Form>
    ensures { result ≡ found_in rows_e name.now }
{
    find_in(&NAMES_E, name)
}

#[tactic(auto, unfolding(crate::specs::laws::Table::rows_j))]
fn form_in_j(name: &[u8]) -> Option<Form>
    ensures { result ≡ found_in rows_j name.now }
{
    find_in(&NAMES_J, name)
}

#[tactic(auto, unfolding(crate::specs::laws::Table::rows_l))]
fn form_in_l(name: &[u8]) -> Option<Form>
    ensures { result ≡ found_in rows_l name.now }
{
    find_in(&NAMES_L, name)
}

#[tactic(auto, unfolding(crate::specs::laws::Table::rows_m))]
fn form_in_m(name: &[u8]) -> Option<Form>
    ensures { result ≡ found_in rows_m name.now }
{
    find_in(&NAMES_M, name)
}

#[tactic(auto, unfolding(crate::specs::laws::Table::rows_n))]
fn form_in_n(name: &[u8]) -> Option<Form>
    ensures { result ≡ found_in rows_n name.now }
{
    find_in(&NAMES_N, name)
}

#[tactic(auto, unfolding(crate::specs::laws::Table::rows_o))]
fn form_in_o(name: &[u8]) -> Option<Form>
    ensures { result ≡ found_in rows_o name.now }
{
    find_in(&NAMES_O, name)
}

#[tactic(auto, unfolding(crate::specs::laws::Table::rows_p))]
fn form_in_p(name: &[u8]) -> Option<Form>
    ensures { result ≡ found_in rows_p name.now }
{
    find_in(&NAMES_P, name)
}

#[tactic(auto, unfolding(crate::specs::laws::Table::rows_r))]
fn form_in_r(name: &[u8]) -> Option<Form>
    ensures { result ≡ found_in rows_r name.now }
{
    find_in(&NAMES_R, name)
}

#[tactic(auto, unfolding(crate::specs::laws::Table::rows_s))]
fn form_in_s(name: &[u8]) -> Option<Form>
    ensures { result ≡ found_in rows_s name.now }
{
    find_in(&NAMES_S, name)
}

#[tactic(auto, unfolding(crate::specs::laws::Table::rows_t))]
fn form_in_t(name: &[u8]) -> Option<Form>
    ensures { result ≡ found_in rows_t name.now }
{
    find_in(&NAMES_T, name)
}

#[tactic(auto, unfolding(crate::specs::laws::Table::rows_u))]
fn form_in_u(name: &[u8]) -> Option<Form>
    ensures { result ≡ found_in rows_u name.now }
{
    find_in(&NAMES_U, name)
}

/// The form of a name that begins with this letter.
#[tactic(auto, unfolding(crate::specs::laws::Table::form_by))]
fn form_by(letter: u8, name: &[u8]) -> Option<Form>
    ensures { result ≡ form_by_of letter name.now }
{
    match letter {
        b'a' => form_in_a(name),
        b'b' => form_in_b(name),
        b'c' => form_in_c(name),
        b'd' => form_in_d(name),
        b'e' => form_in_e(name),
        b'j' => form_in_j(name),
        b'l' => form_in_l(name),
        b'm' => form_in_m(name),
        b'n' => form_in_n(name),
        b'o' => form_in_o(name),
        b'p' => form_in_p(name),
        b'r' => form_in_r(name),
        b's' => form_in_s(name),
        b't' => form_in_t(name),
        b'u' => form_in_u(name),
        _ => None,
    }
}

/// The form of a name, if it is one of the list.
pub fn form_of(name: &[u8]) -> Option<Form>
    ensures form { result ≡ form_of_name name.now }
    ensures listed { is_some result ≡ is_name name.now }
{
    form_in_tables(name)
}

/// The form of a name, by its first letter.
#[tactic(auto, unfolding(crate::specs::laws::Table::form_of, crate::specs::laws::Table::form_by))]
fn form_in_tables(name: &[u8]) -> Option<Form>
    ensures { result ≡ form_of_name name.now }
{
    if name.is_empty() {
        None
    } else {
        form_by(name[0], name)
    }
}

/// The form in the first of the rows with this name.
fn find_in(rows: &[Row], name: &[u8]) -> Option<Form>
    ensures { result ≡ found_in (map (λ r. (r.0.now, r.1)) rows.now) name.now }
{
    for row in rows {
        if row.0.as_bytes() == name {
            return Some(row.1);
        }
    }
    None
}
