// The last line of a call, and the status.
ghost use Rattle.std.specs.Prelude.{[]};
ghost use Rattle.switch_frame.specs.Records.{isa_of};
ghost use Rattle.call_trace.specs.Lines.{end_line};
ghost use Rattle.mix_top.specs.Continuing.{image_refusal};
ghost use Rattle.mix_top.specs.Lines.{load_refusal, memory_line};
ghost use Rattle.mix_top.specs.inner.Lines.{refused_line, refused_status};
ghost use Rattle.mix_io.specs.StreamsClauses.{output};
ghost use Rattle.mix_top.specs.World.{Closes};
ghost use Rattle.mix_top.specs.inner.Parts.{Finishes, unfetched_line, unfetched_status};

use super::files::Missing;
use super::lines::{fetch_text, image_text, load_text, long_text};
use super::status::{
    FAULTED, INPUT_FAILED, LIMIT_REACHED, NO_MEMORY, NOT_FETCHED, NOT_LOADED, OTHER_CODE,
    OUTPUT_FAILED, SUCCESS, TRACE_FAILED,
};
use call_trace::{End, put_end};
use mix_image::ImageError;
use mix_io::{FetchError, Sink};
use mix_load::LoadError;
use mixed_machine::Stop;
use switch_frame::Active;

/// Puts the last line on the trace, and answers the status, or that the trace failed.
pub fn close<T: Sink>(trace: &mut T, line: &[u8], status: u8) -> u8
    ensures { Closes (output (T.held trace.old) (T.faults trace.old)) (output (T.held trace.new) (T.faults trace.new)) [] line.now status result }
{
    match trace.put(line) {
        Ok(()) => status,
        Err(_) => TRACE_FAILED,
    }
}

/// The line and the status where there was no memory.
pub fn close_without_memory<T: Sink>(trace: &mut T) -> u8
    ensures { Closes (output (T.held trace.old) (T.faults trace.old)) (output (T.held trace.new) (T.faults trace.new)) [] memory_line 9 result }
{
    close(trace, b"memory\n", NO_MEMORY)
}

/// The line and the status where a file was not fetched.
pub fn close_unfetched<T: Sink>(missing: Missing, trace: &mut T) -> u8
    ensures { Closes (output (T.held trace.old) (T.faults trace.old)) (output (T.held trace.new) (T.faults trace.new)) [] (unfetched_line missing.key missing.error) (unfetched_status missing.error) result }
{
    match missing.error {
        FetchError::NoMemory => close_without_memory(trace),
        FetchError::Failed => close(trace, fetch_text(missing.key).bytes(), NOT_FETCHED),
        FetchError::TooLong(_) => close(trace, long_text(missing.key).bytes(), NOT_LOADED),
    }
}

/// The line and the status where a program was not loaded.
pub fn close_unloaded<T: Sink>(error: LoadError, trace: &mut T) -> u8
    ensures { Closes (output (T.held trace.old) (T.faults trace.old)) (output (T.held trace.new) (T.faults trace.new)) [] (refused_line (load_refusal error)) (refused_status (load_refusal error)) result }
{
    match load_text(error) {
        Some(line) => close(trace, line.bytes(), NOT_LOADED),
        None => close_without_memory(trace),
    }
}

/// The line and the status where an image was not restored.
pub fn close_unrestored<T: Sink>(error: ImageError, trace: &mut T) -> u8
    ensures { Closes (output (T.held trace.old) (T.faults trace.old)) (output (T.held trace.new) (T.faults trace.new)) [] (refused_line (image_refusal error)) (refused_status (image_refusal error)) result }
{
    match image_text(error) {
        Some(line) => close(trace, line.bytes(), NOT_LOADED),
        None => close_without_memory(trace),
    }
}

/// The end line and the status of a run that stopped with these registers.
pub fn finish<T: Sink>(stop: Stop, active: &Active, trace: &mut T) -> u8
    ensures { Finishes stop (isa_of active.now) (output (T.held trace.old) (T.faults trace.old)) (output (T.held trace.new) (T.faults trace.new)) result }
{
    match stop {
        Stop::Exit(0) => close_end(trace, End::Exit(0), SUCCESS),
        Stop::Exit(code) => close_end(trace, End::Exit(code), OTHER_CODE),
        Stop::Fault(fault) => close_end(trace, End::Fault(active.isa(), fault), FAULTED),
        Stop::Limit => close_end(trace, End::Limit, LIMIT_REACHED),
        Stop::ReadFault => INPUT_FAILED,
        Stop::OutFault => OUTPUT_FAILED,
        Stop::TraceFault => TRACE_FAILED,
    }
}

/// Puts an end line, and answers the status, or that the trace failed.
fn close_end<T: Sink>(trace: &mut T, end: End, status: u8) -> u8
    ensures { Closes (output (T.held trace.old) (T.faults trace.old)) (output (T.held trace.new) (T.faults trace.new)) [] (end_line end) status result }
{
    match put_end(trace, &end) {
        Ok(()) => status,
        Err(_) => TRACE_FAILED,
    }
}
