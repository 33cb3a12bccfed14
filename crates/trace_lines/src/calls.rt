// The line of a call.
ghost use Rattle.std.specs.Prelude.{◌≡◌, ◌+◌, ◌-◌, ◌≤◌, IfSome, length, take, drop, replicate};
ghost use Rattle.std.specs.Option.{option_map};
ghost use Rattle.proc_info.specs.Signature.{signature_of};
ghost use Rattle.proc_info.specs.Views.{signature};
ghost use Rattle.trace_lines.specs.inner.Reading.{Appends, args_in, call_of, crossing_of, head_of, rest_by, values_of};

use crate::event::Crossing;
use crate::pieces::{front_hex, front_set, front_value, past, width};
use arrayvec::ArrayVec;
use mix_bits::Size;
use proc_info::{Param, Sig, read};
use switch_frame::Kind;

/// The front of a call's line, up to its procInfo.
#[derive(Clone, Copy)]
pub struct Head {
    pub kind: Kind,
    pub target: u32,
    pub info: u32,
}

/// The call whose line, behind `call `, a text is.
#[tactic(auto, unfolding(crate::specs::inner::Reading::call_of))]
pub fn read_call(text: &[u8]) -> Option<Crossing>
    ensures { result ≡ call_of text.now }
{
    let head = read_head(text)?;
    read_rest(head, past(text, 25))
}

/// What stands behind a front.
fn read_rest(head: Head, text: &[u8]) -> Option<Crossing>
    ensures { result ≡ rest_by head (signature_of head.info) text.now }
{
    match read(head.info) {
        Ok(sig) => read_values(head, &sig, text),
        Err(_) => None,
    }
}

/// `FROM TO TARGET PROCINFO`
#[tactic(auto, unfolding(crate::specs::inner::Reading::head_of))]
fn read_head(text: &[u8]) -> Option<Head>
    ensures head { result ≡ head_of text.now }
    ensures inside { IfSome result (λ head. 25 ≤ length text.now) }
{
    let caller = front_set(text)?;
    let callee = front_set(past(text, 4))?;
    let target = front_hex(past(text, 8), 8)?;
    let info = front_value(past(text, 16), " ", Size::Four)?;
    Some(Head {
        kind: Kind::of(caller, callee),
        target,
        info,
    })
}

/// The selector and the arguments of a call.
#[tactic(auto, unfolding(crate::specs::inner::Reading::values_of))]
fn read_values(head: Head, sig: &Sig, text: &[u8]) -> Option<Crossing>
    ensures { result ≡ values_of head (signature sig.now) text.now }
{
    let selector = front_value(text, " #", sig.selector)?;
    let text = past(text, width(" #", sig.selector));
    read_args(head, selector, sig.params(), text)
}

/// The arguments behind a selector.
#[inline(always)]
fn read_args(head: Head, selector: u32, params: &[Param], text: &[u8]) -> Option<Crossing>
    requires { length params.now ≤ 13 }
    ensures { result ≡ option_map (crossing_of head selector) (args_in params.now text.now) }
{
    let mut args = ArrayVec::new();
    add_args(&mut args, params, text)?;
    Some(crossing(head, selector, &args))
}

#[tactic(auto, using(crate::proofs::Padding::parts_are))]
fn crossing(head: Head, selector: u32, args: &[u32]) -> Crossing
    requires { length args.now ≤ 13 }
    ensures { result ≡ crossing_of head selector args.now }
{
    Crossing {
        kind: head.kind,
        target: head.target,
        info: head.info,
        selector,
        count: args.len() as u8,
        args: padded(args),
    }
}

/// The arguments and zeros up to thirteen.
fn padded(args: &[u32]) -> [u32; 13]
    requires { length args.now ≤ 13 }
    ensures front { take (length args.now) result ≡ args.now }
    ensures rest { drop (length args.now) result ≡ replicate (13 - length args.now) 0 }
{
    let mut all = [0; 13];
    all[..args.len()].copy_from_slice(args);
    all
}

/// Appends the arguments of parameters, whose text is all that is left of the line.
#[tactic(auto, using(crate::proofs::Padding::behind_front, crate::proofs::Padding::behind_none))]
fn add_args(args: &mut ArrayVec<u32, 13>, params: &[Param], text: &[u8]) -> Option<()>
    requires { length args.old.items + length params.now ≤ 13 }
    ensures args { Appends result args.old.items args.new.items (args_in params.now text.now) }
    ensures count { IfSome result (λ done. length args.new.items ≡ length args.old.items + length params.now) }
{
    match params {
        [] => { if text.is_empty() { Some(()) } else { None } }
        [first, rest @ ..] => {
            args.push(front_value(text, " ", first.size)?);
            add_args(args, rest, past(text, width(" ", first.size)))?;
            Some(())
        }
    }
}
