// A procInfo word in words.
ghost use Rattle.std.specs.Prelude.{◌≡◌, ◌+◌, ◌*◌, ◌≤◌, ◌++◌, IfOk, OnOk, length};
ghost use Rattle.proc_info.specs.Views.{signature};
ghost use Rattle.std.specs.Option.{option_map};
ghost use Rattle.look_text.specs.Info.{first_word as first_of, info_of, param_text, params_text, refusal_of, result_text, selector_text, signed_text, values_text};

use super::line::{Piece, add_line, line_of};
use super::pieces::add;
use super::words::{conv_name, rule_text, size_name};
use args_m68::{next_base, place_for, result_place, selector_place, selector_width, widths};
use mix_bits::{NoMemory, Size};
use proc_info::{Conv, Param, Sig, read};
use std::alloc::Global;

/// What a procInfo word says: its convention, its result and each value that it declares, with the place of each in
/// 68K code and in PowerPC code; or which rule it breaks. Places of 68K code are those where a callee begins, and that
/// of a result is the one behind the return.
#[tactic(auto, unfolding(crate::specs::Info::info_of))]
pub fn info_text(alloc: Global, word: u32) -> Result<Vec<u8>, NoMemory>
    ensures { IfOk result (λ text. text.items ≡ info_of word) }
{
    match read(word) {
        Ok(sig) => signed(alloc, word, &sig),
        Err(bad) => line_of(
            alloc,
            &[
                Piece::Long(word),
                Piece::Text(" has no signature, by rule "),
                Piece::Text(rule_text(bad)),
                Piece::Text("\n"),
            ],
        ),
    }
}

/// The convention of a procInfo word, and which rule it breaks, where it has no signature.
#[tactic(auto, unfolding(crate::specs::Info::refusal_of))]
pub fn info_refusal(alloc: Global, word: u32) -> Result<Option<Vec<u8>>, NoMemory>
    ensures { IfOk result (λ text. option_map (λ line. line.items) text ≡ refusal_of word) }
{
    match read(word) {
        Ok(_) => Ok(None),
        Err(bad) => Ok(Some(line_of(
            alloc,
            &[
                Piece::Text("convention "),
                Piece::Number(word % 16),
                Piece::Text(": "),
                Piece::Long(word),
                Piece::Text(" has no signature, by rule "),
                Piece::Text(rule_text(bad)),
                Piece::Text("\n"),
            ],
        )?)),
    }
}

fn signed(alloc: Global, word: u32, sig: &Sig) -> Result<Vec<u8>, NoMemory>
    ensures { IfOk result (λ text. text.items ≡ signed_text word (signature sig.now)) }
{
    let mut text = line_of(
        alloc,
        &[
            Piece::Long(word),
            Piece::Text(": "),
            Piece::Text(conv_name(sig.conv)),
            Piece::Text("\n"),
        ],
    )?;
    add_values(&mut text, sig)?;
    Ok(text)
}

/// Appends the lines of the result, the selector and the parameters.
#[tactic(auto, using(std::proofs::Common::append_assoc))]
fn add_values(text: &mut Vec<u8>, sig: &Sig) -> Result<(), NoMemory>
    ensures { OnOk result (text.new.items ≡ text.old.items ++ values_text (signature sig.now)) }
{
    add_result(text, sig)?;
    add_selector(text, sig)?;
    let base = 4 + selector_width(sig.conv, sig.selector);
    add_params(text, sig.conv, base, 0, sig.params())
}

fn add_result(text: &mut Vec<u8>, sig: &Sig) -> Result<(), NoMemory>
    ensures { OnOk result (text.new.items ≡ text.old.items ++ result_text (signature sig.now)) }
{
    match sig.result {
        Size::Zero => add(text, "result: none\n"),
        size => add_line(
            text,
            &[
                Piece::Text("result: "),
                Piece::Text(size_name(size)),
                Piece::Text(", 68K "),
                Piece::Place(result_place(sig.conv.route(), sig.place)),
                Piece::Text(" behind the return, PowerPC r3\n"),
            ],
        ),
    }
}

/// Appends the selector of a dispatched convention.
fn add_selector(text: &mut Vec<u8>, sig: &Sig) -> Result<(), NoMemory>
    ensures { OnOk result (text.new.items ≡ text.old.items ++ selector_text (signature sig.now)) }
{
    match sig.selector {
        Size::Zero => Ok(()),
        size => add_line(
            text,
            &[
                Piece::Text("selector: "),
                Piece::Text(size_name(size)),
                Piece::Text(", 68K "),
                Piece::Place(selector_place(sig.conv)),
                Piece::Text(", PowerPC "),
                Piece::PpcWord(0),
                Piece::Text(", by CallUniversalProc "),
                Piece::PpcWord(2),
                Piece::Text("\n"),
            ],
        ),
    }
}

/// Appends the parameters from number `k` on, counted from 0.
#[tactic(auto, using(std::proofs::Common::append_assoc))]
fn add_params(
    text: &mut Vec<u8>,
    conv: Conv,
    base: u32,
    k: u8,
    params: &[Param],
) -> Result<(), NoMemory>
    requires few { k + length params.now ≤ 13 }
    requires near { base ≤ 100 + 4 * k }
    ensures { OnOk result (text.new.items ≡ text.old.items ++ params_text conv base k params.now) }
{
    match params {
        [] => Ok(()),
        [first, rest @ ..] => {
            add_param(text, conv, base, k, *first, widths(rest))?;
            add_params(text, conv, next_base(conv.route(), base), k + 1, rest)
        }
    }
}

fn add_param(
    text: &mut Vec<u8>,
    conv: Conv,
    base: u32,
    k: u8,
    param: Param,
    later: u32,
) -> Result<(), NoMemory>
    requires few { k ≤ 13 }
    requires near { base ≤ 200 }
    requires later { later ≤ 52 }
    ensures { OnOk result (text.new.items ≡ text.old.items ++ param_text conv base k param later) }
{
    let word = first_word(conv) + k;
    add_line(
        text,
        &[
            Piece::Text("parameter "),
            Piece::Number(u32::from(k) + 1),
            Piece::Text(": "),
            Piece::Text(size_name(param.size)),
            Piece::Text(", 68K "),
            Piece::Place(place_for(conv.route(), base, &param, later)),
            Piece::Text(", PowerPC "),
            Piece::PpcWord(word),
            Piece::Text(", by CallUniversalProc "),
            Piece::PpcWord(word + 2),
            Piece::Text("\n"),
        ],
    )
}

/// The PowerPC word of the first parameter: a selector is the first word.
fn first_word(conv: Conv) -> u8
    ensures word { result ≡ first_of conv }
    ensures small { result ≤ 1 }
{
    if conv.is_dispatched() { 1 } else { 0 }
}
