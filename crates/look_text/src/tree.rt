// The lines of a trace as a tree.
ghost use Rattle.std.specs.Prelude.{◌≡◌, ◌++◌, IfOk, OnOk};
ghost use Rattle.proc_info.specs.Signature.{signature_in};
ghost use Rattle.proc_info.specs.Views.{signature};
ghost use Rattle.trace_lines.specs.EventLines.{args_of};
ghost use Rattle.look_text.specs.Tree.{args_text, called_text, event_text, indent_text, sized_text, tree_of, values_text, way_text};

use super::line::{Piece, add_line};
use super::pieces::{add, add_bytes};
use call_trace::set_name;
use mix_bits::{NoMemory, Size};
use proc_info::{Param, Sig, read};
use std::alloc::Global;
use switch_frame::Kind;
use trace_lines::{Crossing, Event};

/// How many calls deep a line stands at most to the right.
pub const DEEPEST: u32 = 256;

/// A line of a trace as a line of a tree: `depth` calls are open around it, and `name` stands for a call's target. What is
/// neither a call nor a return stays as it is in the trace.
#[tactic(auto, unfolding(crate::specs::Tree::tree_of))]
pub fn tree_line(
    alloc: Global,
    depth: u32,
    name: &[u8],
    line: &[u8],
    event: &Event,
) -> Result<Vec<u8>, NoMemory>
    ensures { IfOk result (λ text. text.items ≡ tree_of depth name.now line.now event.now) }
{
    let mut text = indented(alloc, depth)?;
    add_event(&mut text, name, line, event)?;
    add(&mut text, "\n")?;
    Ok(text)
}

/// The spaces before a line.
fn indented(alloc: Global, depth: u32) -> Result<Vec<u8>, NoMemory>
    ensures { IfOk result (λ text. text.items ≡ indent_text depth) }
{
    Ok(vec![in alloc; b' '; 4 * depth.min(DEEPEST) as usize]?)
}

fn add_event(text: &mut Vec<u8>, name: &[u8], line: &[u8], event: &Event) -> Result<(), NoMemory>
    ensures { OnOk result (text.new.items ≡ text.old.items ++ event_text name.now line.now event.now) }
{
    match event {
        Event::Called(call) => add_call(text, name, call),
        Event::Returned(size, value) => add_sized(text, "gave ", *size, *value),
        Event::Asked(_, _, _) => add_bytes(text, line),
        Event::Ended(_) => add_bytes(text, line),
    }
}

/// `FROM to TO NAME: SIZE VALUE, ..`
#[tactic(auto, using(std::proofs::Common::append_assoc))]
fn add_call(text: &mut Vec<u8>, name: &[u8], call: &Crossing) -> Result<(), NoMemory>
    ensures { OnOk result (text.new.items ≡ text.old.items ++ called_text name.now call.now) }
{
    add_way(text, name, call.kind)?;
    add_values(text, &signature_for(call.info), call)
}

/// Appends the sets of a call, and the name of its target.
fn add_way(text: &mut Vec<u8>, name: &[u8], kind: Kind) -> Result<(), NoMemory>
    ensures { OnOk result (text.new.items ≡ text.old.items ++ way_text name.now kind) }
{
    add_line(
        text,
        &[
            Piece::Text(set_name(kind.caller())),
            Piece::Text(" to "),
            Piece::Text(set_name(kind.callee())),
            Piece::Text(" "),
            Piece::Bytes(name),
        ],
    )
}

/// The signature of a procInfo word, which has one; an empty one else.
pub fn signature_for(info: u32) -> Sig
    ensures { signature result ≡ signature_in info }
{
    match read(info) {
        Ok(sig) => sig,
        Err(_) => Sig::empty(),
    }
}

/// Appends the selector and the arguments of a call.
#[tactic(auto, using(std::proofs::Common::append_assoc))]
fn add_values(text: &mut Vec<u8>, sig: &Sig, call: &Crossing) -> Result<(), NoMemory>
    ensures { OnOk result (text.new.items ≡ text.old.items ++ values_text (signature sig.now) call.now) }
{
    match sig.selector {
        Size::Zero => add_args(text, ": ", sig.params(), args(call)),
        size => {
            add_sized(text, ": selector ", size, call.selector)?;
            add_args(text, ", ", sig.params(), args(call))
        }
    }
}

/// The arguments of a call.
fn args(call: &Crossing) -> &[u32]
    ensures { result.now ≡ args_of call.now }
{
    &call.args[..usize::from(call.count).min(13)]
}

/// Appends arguments with their sizes, the first one behind a mark.
#[tactic(auto, using(std::proofs::Common::append_assoc))]
fn add_args(text: &mut Vec<u8>, mark: &str, params: &[Param], args: &[u32]) -> Result<(), NoMemory>
    ensures { OnOk result (text.new.items ≡ text.old.items ++ args_text mark.now params.now args.now) }
{
    match params {
        [] => Ok(()),
        [param, params @ ..] => match args {
            [] => Ok(()),
            [arg, args @ ..] => {
                add_sized(text, mark, param.size, *arg)?;
                add_args(text, ", ", params, args)
            }
        },
    }
}

/// Appends a value behind a mark and the word for its size.
fn add_sized(text: &mut Vec<u8>, mark: &str, size: Size, value: u32) -> Result<(), NoMemory>
    ensures { OnOk result (text.new.items ≡ text.old.items ++ sized_text mark.now size value) }
{
    let (word, digits) = match size {
        Size::Zero => ("nothing", Piece::Text("")),
        Size::One => ("byte ", Piece::Byte(value)),
        Size::Two => ("word ", Piece::Word(value)),
        Size::Four => ("long ", Piece::Long(value)),
    };
    add_line(text, &[Piece::Text(mark), Piece::Text(word), digits])
}
