// The puts of the trace: each line is one put, and as any put it answers `Failed` only where the sink's count of
// faults rose.
ghost use Rattle.std.specs.Prelude.{◌≡◌, length};
ghost use Rattle.call_trace.specs.Lines.{ask_line, call_line, end_line, ret_line};
ghost use Rattle.mix_io.specs.Calls.{one_more};
ghost use Rattle.mix_io.specs.CountsClauses.{HasCause};
ghost use Rattle.mix_io.specs.Told.{Puts};
ghost use Rattle.proc_info.specs.Views.{params_of, signature};
ghost use Rattle.switch_frame.specs.RecordsClauses.{record_of};

use crate::End;
use crate::lines::{put_ask_text, put_call_text, put_end_text, put_ret_text};
use dev_rack::Answer;
use mix_bits::Line;
use mix_io::{Failed, Sink};
use proc_info::Sig;
use switch_frame::Held;

/// Puts the line of a call that made a frame, with one argument for each parameter of its signature.
pub fn put_call<T: Sink>(trace: &mut T, held: &Held, sig: &Sig, args: &[u32]) -> Result<(), Failed>
    requires { length args.now ≡ length (params_of sig.now) }
    ensures line { Puts (T.held trace.old) (T.held trace.new) (call_line (record_of held.now) (signature sig.now) args.now) result }
    ensures cause { HasCause (T.faults trace.old) (T.faults trace.new) result }
    ensures count { T.puts trace.new ≡ one_more (T.puts trace.old) }
{
    let mut line = Line::new();
    put_call_text(&mut line, held, sig, args);
    trace.put(line.bytes())
}

/// Puts the line of an accepted return, with the result where the signature has one.
pub fn put_ret<T: Sink>(trace: &mut T, sig: &Sig, value: u32) -> Result<(), Failed>
    ensures line { Puts (T.held trace.old) (T.held trace.new) (ret_line (signature sig.now) value) result }
    ensures cause { HasCause (T.faults trace.old) (T.faults trace.new) result }
    ensures count { T.puts trace.new ≡ one_more (T.puts trace.old) }
{
    let mut line = Line::new();
    put_ret_text(&mut line, sig, value);
    trace.put(line.bytes())
}

/// Puts the line of an ask and what came of it.
pub fn put_ask<T: Sink>(trace: &mut T, slot: u32, word: u32, answer: Answer) -> Result<(), Failed>
    ensures line { Puts (T.held trace.old) (T.held trace.new) (ask_line slot word answer) result }
    ensures cause { HasCause (T.faults trace.old) (T.faults trace.new) result }
    ensures count { T.puts trace.new ≡ one_more (T.puts trace.old) }
{
    let mut line = Line::new();
    put_ask_text(&mut line, slot, word, answer);
    trace.put(line.bytes())
}

/// Puts the last line of a run.
pub fn put_end<T: Sink>(trace: &mut T, end: &End) -> Result<(), Failed>
    ensures line { Puts (T.held trace.old) (T.held trace.new) (end_line end.now) result }
    ensures cause { HasCause (T.faults trace.old) (T.faults trace.new) result }
    ensures count { T.puts trace.new ≡ one_more (T.puts trace.old) }
{
    let mut line = Line::new();
    put_end_text(&mut line, end);
    trace.put(line.bytes())
}
