ghost use Rattle.std.specs.Prelude.{◌≡◌, false};
ghost use Rattle.ppc_isa.specs.Fields.{fields_of};
ghost use Rattle.ppc_isa.specs.Made.{made};
ghost use Rattle.ppc_isa.specs.Operations.{operation};
ghost use Rattle.ppc_isa.specs.Rows.{decoded};

use super::op::OpPpc;
use super::reserved::{
    is_bare, is_comparison, is_count_branch, is_field, is_load_base, is_load_update, is_mask_move,
    is_multiple_load, is_one_field, is_one_register, is_store_update, is_string_load,
    is_two_fields,
};
use super::word::{a_of, b_of, d_of, extended_of, is_last, primary_of, special_of};

/// The operation of a word, or Invalid where it stands for no instruction.
#[inline(always)]
#[tactic(auto, using(crate::proofs::Operations::decoded_made))]
pub fn op_of(word: u32) -> OpPpc
    ensures table { result ≡ operation word }
    ensures makes { decoded word ≡ made result (fields_of word) }
{
    by_opcode(word)
}

/// The operation by the opcode.
#[inline(always)]
#[tactic(auto, unfolding(crate::specs::Operations::operation))]
fn by_opcode(word: u32) -> OpPpc
    ensures { result ≡ operation word }
{
    match primary_of(word) {
        0 => OpPpc::Invalid,
        1 => OpPpc::Invalid,
        2 => OpPpc::Invalid,
        3 => OpPpc::Twi,
        4 => OpPpc::Invalid,
        5 => OpPpc::Invalid,
        6 => OpPpc::Invalid,
        7 => OpPpc::Mulli,
        8 => OpPpc::Subfic,
        9 => OpPpc::Invalid,
        10 => if is_field(d_of(word)) {
            OpPpc::Cmpli
        } else {
            OpPpc::Invalid
        },
        11 => if is_field(d_of(word)) {
            OpPpc::Cmpi
        } else {
            OpPpc::Invalid
        },
        12 => OpPpc::Addic,
        13 => OpPpc::AddicRecord,
        14 => OpPpc::Addi,
        15 => OpPpc::Addis,
        16 => OpPpc::Bc,
        17 => OpPpc::Invalid,
        18 => OpPpc::B,
        19 => op_19(word),
        20 => OpPpc::Rlwimi,
        21 => OpPpc::Rlwinm,
        22 => OpPpc::Invalid,
        23 => OpPpc::Rlwnm,
        24 => OpPpc::Ori,
        25 => OpPpc::Oris,
        26 => OpPpc::Xori,
        27 => OpPpc::Xoris,
        28 => OpPpc::Andi,
        29 => OpPpc::Andis,
        30 => OpPpc::Invalid,
        31 => op_31(word),
        32 => OpPpc::Lwz,
        33 => if is_load_base(word) {
            OpPpc::Lwzu
        } else {
            OpPpc::Invalid
        },
        34 => OpPpc::Lbz,
        35 => if is_load_base(word) {
            OpPpc::Lbzu
        } else {
            OpPpc::Invalid
        },
        36 => OpPpc::Stw,
        37 => if a_of(word) != 0 {
            OpPpc::Stwu
        } else {
            OpPpc::Invalid
        },
        38 => OpPpc::Stb,
        39 => if a_of(word) != 0 {
            OpPpc::Stbu
        } else {
            OpPpc::Invalid
        },
        40 => OpPpc::Lhz,
        41 => if is_load_base(word) {
            OpPpc::Lhzu
        } else {
            OpPpc::Invalid
        },
        42 => OpPpc::Lha,
        43 => if is_load_base(word) {
            OpPpc::Lhau
        } else {
            OpPpc::Invalid
        },
        44 => OpPpc::Sth,
        45 => if a_of(word) != 0 {
            OpPpc::Sthu
        } else {
            OpPpc::Invalid
        },
        46 => if is_multiple_load(word) {
            OpPpc::Lmw
        } else {
            OpPpc::Invalid
        },
        47 => OpPpc::Stmw,
        48 => OpPpc::Invalid,
        49 => OpPpc::Invalid,
        50 => OpPpc::Invalid,
        51 => OpPpc::Invalid,
        52 => OpPpc::Invalid,
        53 => OpPpc::Invalid,
        54 => OpPpc::Invalid,
        55 => OpPpc::Invalid,
        56 => OpPpc::Invalid,
        57 => OpPpc::Invalid,
        58 => OpPpc::Invalid,
        59 => OpPpc::Invalid,
        60 => OpPpc::Invalid,
        61 => OpPpc::Invalid,
        62 => OpPpc::Invalid,
        63 => OpPpc::Invalid,
        _ => unreachable!(),
    }
}

/// Opcode 19.
#[inline(always)]
#[tactic(auto, unfolding(crate::specs::Operations::operation))]
fn op_19(word: u32) -> OpPpc
    requires { (fields_of word).op ≡ 19 }
    ensures { result ≡ operation word }
{
    match extended_of(word) {
        0 if is_two_fields(word) => OpPpc::Mcrf,
        16 if b_of(word) == 0 => OpPpc::Bclr,
        33 if !is_last(word) => OpPpc::Crnor,
        129 if !is_last(word) => OpPpc::Crandc,
        150 if is_bare(word) => OpPpc::Isync,
        193 if !is_last(word) => OpPpc::Crxor,
        225 if !is_last(word) => OpPpc::Crnand,
        257 if !is_last(word) => OpPpc::Crand,
        289 if !is_last(word) => OpPpc::Creqv,
        417 if !is_last(word) => OpPpc::Crorc,
        449 if !is_last(word) => OpPpc::Cror,
        528 if is_count_branch(word) => OpPpc::Bcctr,
        _ => OpPpc::Invalid,
    }
}

/// Opcode 31.
#[inline(always)]
#[tactic(auto, unfolding(crate::specs::Operations::operation))]
fn op_31(word: u32) -> OpPpc
    requires { (fields_of word).op ≡ 31 }
    ensures { result ≡ operation word }
{
    match extended_of(word) {
        0 if is_comparison(word) => OpPpc::Cmp,
        4 if !is_last(word) => OpPpc::Tw,
        8 => OpPpc::Subfc,
        10 => OpPpc::Addc,
        11 => OpPpc::Mulhwu,
        19 if is_one_register(word) => OpPpc::Mfcr,
        23 if !is_last(word) => OpPpc::Lwzx,
        24 => OpPpc::Slw,
        26 if b_of(word) == 0 => OpPpc::Cntlzw,
        28 => OpPpc::And,
        32 if is_comparison(word) => OpPpc::Cmpl,
        40 => OpPpc::Subf,
        55 if is_load_update(word) => OpPpc::Lwzux,
        60 => OpPpc::Andc,
        75 => OpPpc::Mulhw,
        87 if !is_last(word) => OpPpc::Lbzx,
        104 if b_of(word) == 0 => OpPpc::Neg,
        119 if is_load_update(word) => OpPpc::Lbzux,
        124 => OpPpc::Nor,
        136 => OpPpc::Subfe,
        138 => OpPpc::Adde,
        144 if is_mask_move(word) => OpPpc::Mtcrf,
        151 if !is_last(word) => OpPpc::Stwx,
        183 if is_store_update(word) => OpPpc::Stwux,
        200 if b_of(word) == 0 => OpPpc::Subfze,
        202 if b_of(word) == 0 => OpPpc::Addze,
        215 if !is_last(word) => OpPpc::Stbx,
        232 if b_of(word) == 0 => OpPpc::Subfme,
        234 if b_of(word) == 0 => OpPpc::Addme,
        235 => OpPpc::Mullw,
        247 if is_store_update(word) => OpPpc::Stbux,
        266 => OpPpc::Add,
        279 if !is_last(word) => OpPpc::Lhzx,
        284 => OpPpc::Eqv,
        311 if is_load_update(word) => OpPpc::Lhzux,
        316 => OpPpc::Xor,
        339 if !is_last(word) => from_special(word),
        343 if !is_last(word) => OpPpc::Lhax,
        375 if is_load_update(word) => OpPpc::Lhaux,
        407 if !is_last(word) => OpPpc::Sthx,
        412 => OpPpc::Orc,
        439 if is_store_update(word) => OpPpc::Sthux,
        444 => OpPpc::Or,
        459 => OpPpc::Divwu,
        467 if !is_last(word) => to_special(word),
        476 => OpPpc::Nand,
        491 => OpPpc::Divw,
        512 if is_one_field(word) => OpPpc::Mcrxr,
        520 => OpPpc::Subfc,
        522 => OpPpc::Addc,
        533 if !is_last(word) => OpPpc::Lswx,
        534 if !is_last(word) => OpPpc::Lwbrx,
        536 => OpPpc::Srw,
        552 => OpPpc::Subf,
        597 if is_string_load(word) => OpPpc::Lswi,
        598 if is_bare(word) => OpPpc::Sync,
        616 if b_of(word) == 0 => OpPpc::Neg,
        648 => OpPpc::Subfe,
        650 => OpPpc::Adde,
        661 if !is_last(word) => OpPpc::Stswx,
        662 if !is_last(word) => OpPpc::Stwbrx,
        712 if b_of(word) == 0 => OpPpc::Subfze,
        714 if b_of(word) == 0 => OpPpc::Addze,
        725 if !is_last(word) => OpPpc::Stswi,
        744 if b_of(word) == 0 => OpPpc::Subfme,
        746 if b_of(word) == 0 => OpPpc::Addme,
        747 => OpPpc::Mullw,
        778 => OpPpc::Add,
        790 if !is_last(word) => OpPpc::Lhbrx,
        792 => OpPpc::Sraw,
        824 => OpPpc::Srawi,
        918 if !is_last(word) => OpPpc::Sthbrx,
        922 if b_of(word) == 0 => OpPpc::Extsh,
        954 if b_of(word) == 0 => OpPpc::Extsb,
        971 => OpPpc::Divwu,
        1003 => OpPpc::Divw,
        _ => OpPpc::Invalid,
    }
}

/// A move from a special purpose register.
#[tactic(auto, unfolding(crate::specs::Operations::operation))]
fn from_special(word: u32) -> OpPpc
    requires op { (fields_of word).op ≡ 31 }
    requires extended { (fields_of word).xo ≡ 339 }
    requires plain { (fields_of word).last ≡ false }
    ensures { result ≡ operation word }
{
    match special_of(word) {
        1 => OpPpc::Mfxer,
        8 => OpPpc::Mflr,
        9 => OpPpc::Mfctr,
        _ => OpPpc::Invalid,
    }
}

/// A move to a special purpose register.
#[tactic(auto, unfolding(crate::specs::Operations::operation))]
fn to_special(word: u32) -> OpPpc
    requires op { (fields_of word).op ≡ 31 }
    requires extended { (fields_of word).xo ≡ 467 }
    requires plain { (fields_of word).last ≡ false }
    ensures { result ≡ operation word }
{
    match special_of(word) {
        1 => OpPpc::Mtxer,
        8 => OpPpc::Mtlr,
        9 => OpPpc::Mtctr,
        _ => OpPpc::Invalid,
    }
}
