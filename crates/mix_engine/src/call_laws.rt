// The laws of the crates below that calls and returns stand on.
ghost use Rattle.mix_engine.specs.laws.CallLaws.{AreCallLaws};

use big_memory::put_laws;
use mix_io::stream_laws;
use mode_switch::switch_laws;
use switch_frame::frame_laws;

/// The laws of sinks, of lists of bytes, of callees' stacks and of single frames. It does nothing.
#[inline(always)]
pub fn call_laws()
    ensures { AreCallLaws }
{
    stream_laws();
    put_laws();
    switch_laws();
    frame_laws();
}
