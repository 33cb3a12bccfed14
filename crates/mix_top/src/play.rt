// The commands of a script, one after the other.
ghost use Rattle.std.specs.Prelude.{◌≡◌, length};
ghost use Rattle.mix_engine.specs.Beside.{AreSame};
ghost use Rattle.mix_top.specs.Events.{events_of, forward, told, told_behind};
ghost use Rattle.mix_top.specs.Places.{place_beside, stop_in};
ghost use Rattle.mix_top.specs.Performing.{Does, Plays};

use crate::command::ScriptCommand;
use crate::script::Script;
use crate::texts::{tell_answer, tell_crawl, tell_end, tell_place};
use crate::walk::{Until, Walked, live, walk_back, walk_forward};
use dev_rack::Devices;
use mix_debug::Debug;
use mix_engine::Outside;
use mix_io::{Sink, Source};
use toolbox::Broken;

/// Does the commands of a script, one after the other, and puts their texts among the lines of the steps; where the outside
/// fails, it ends there.
pub fn run_script<'i, 'o, 't, 'd, I: Source, O: Sink, T: Sink, D: Devices>(
    debug: &mut Debug,
    script: Script<'_>,
    outside: &mut Outside<'i, 'o, 't, 'd, I, O, T, D>,
) -> Result<(), Broken>
    ensures plays { Plays script.entry
        (place_beside I.left I.faults O.held O.faults T.held T.faults D.state debug.old outside.old)
        (place_beside I.left I.faults O.held O.faults T.held T.faults D.state debug.new outside.new)
        result }
    ensures same { AreSame outside.old outside.new }
{
    let mut left = script;
    'commands: loop {
        match left.next() {
            None => return Ok(()),
            Some(command) => match do_command(debug, command, outside) {
                Ok(()) => {}
                Err(stopped) => return Err(stopped),
            },
        }
    }
}

/// Does a command.
fn do_command<'i, 'o, 't, 'd, I: Source, O: Sink, T: Sink, D: Devices>(
    debug: &mut Debug,
    command: ScriptCommand,
    outside: &mut Outside<'i, 'o, 't, 'd, I, O, T, D>,
) -> Result<(), Broken>
    ensures does { Does (events_of command)
        (place_beside I.left I.faults O.held O.faults T.held T.faults D.state debug.old outside.old)
        (place_beside I.left I.faults O.held O.faults T.held T.faults D.state debug.new outside.new)
        (stop_in result) }
    ensures same { AreSame outside.old outside.new }
{
    match command {
        ScriptCommand::Step(count) => go_forward(debug, Until::Count, count, outside),
        ScriptCommand::Over(count) => go_over(debug, count, outside),
        ScriptCommand::Go(count) => go_forward(debug, Until::Breakpoint, count, outside),
        ScriptCommand::Back(count) => go_back(debug, count, outside),
        ScriptCommand::Break(a) => set_break(debug, a, outside),
        ScriptCommand::Clear(a) => clear_break(debug, a, outside),
        ScriptCommand::Where => crawl(debug, outside),
    }
}

/// Does up to so many steps, until no more frames are live than now, and tells what came of them.
fn go_over<'i, 'o, 't, 'd, I: Source, O: Sink, T: Sink, D: Devices>(
    debug: &mut Debug,
    count: u32,
    outside: &mut Outside<'i, 'o, 't, 'd, I, O, T, D>,
) -> Result<(), Broken>
    ensures does { Does (events_of (ScriptCommand.Over count))
        (place_beside I.left I.faults O.held O.faults T.held T.faults D.state debug.old outside.old)
        (place_beside I.left I.faults O.held O.faults T.held T.faults D.state debug.new outside.new)
        (stop_in result) }
    ensures same { AreSame outside.old outside.new }
{
    let frames = live(debug);
    go_forward(debug, Until::Frames(frames), count, outside)
}

/// Does up to so many steps, and tells what came of them.
fn go_forward<'i, 'o, 't, 'd, I: Source, O: Sink, T: Sink, D: Devices>(
    debug: &mut Debug,
    until: Until,
    count: u32,
    outside: &mut Outside<'i, 'o, 't, 'd, I, O, T, D>,
) -> Result<(), Broken>
    ensures does { Does (λ s. told s (forward until count s))
        (place_beside I.left I.faults O.held O.faults T.held T.faults D.state debug.old outside.old)
        (place_beside I.left I.faults O.held O.faults T.held T.faults D.state debug.new outside.new)
        (stop_in result) }
    ensures same { AreSame outside.old outside.new }
{
    match walk_forward(debug, until, count, outside) {
        Ok(walked) => tell(debug, walked, outside),
        Err(stopped) => Err(stopped),
    }
}

/// Takes up to so many steps back, and tells what came of them.
fn go_back<'i, 'o, 't, 'd, I: Source, O: Sink, T: Sink, D: Devices>(
    debug: &mut Debug,
    count: u32,
    outside: &mut Outside<'i, 'o, 't, 'd, I, O, T, D>,
) -> Result<(), Broken>
    ensures does { Does (events_of (ScriptCommand.Back count))
        (place_beside I.left I.faults O.held O.faults T.held T.faults D.state debug.old outside.old)
        (place_beside I.left I.faults O.held O.faults T.held T.faults D.state debug.new outside.new)
        (stop_in result) }
    ensures same { AreSame outside.old outside.new }
{
    let walked = walk_back(debug, count);
    tell(debug, walked, outside)
}

/// Tells the end of the program, where steps came to it, and where the code is.
fn tell<'i, 'o, 't, 'd, I: Source, O: Sink, T: Sink, D: Devices>(
    debug: &Debug,
    walked: Walked,
    outside: &mut Outside<'i, 'o, 't, 'd, I, O, T, D>,
) -> Result<(), Broken>
    ensures does { Does (told_behind walked.end walked.done)
        (place_beside I.left I.faults O.held O.faults T.held T.faults D.state debug.now outside.old)
        (place_beside I.left I.faults O.held O.faults T.held T.faults D.state debug.now outside.new)
        (stop_in result) }
    ensures same { AreSame outside.old outside.new }
{
    match tell_end(walked.end, outside.trace) {
        Ok(()) => tell_place(&debug.machine().active, walked.done, outside.trace),
        Err(stopped) => Err(stopped),
    }
}

/// Sets an address to stop at, and tells whether it was done.
fn set_break<'i, 'o, 't, 'd, I: Source, O: Sink, T: Sink, D: Devices>(
    debug: &mut Debug,
    a: u32,
    outside: &mut Outside<'i, 'o, 't, 'd, I, O, T, D>,
) -> Result<(), Broken>
    ensures does { Does (events_of (ScriptCommand.Break a))
        (place_beside I.left I.faults O.held O.faults T.held T.faults D.state debug.old outside.old)
        (place_beside I.left I.faults O.held O.faults T.held T.faults D.state debug.new outside.new)
        (stop_in result) }
    ensures same { AreSame outside.old outside.new }
{
    let done = debug.set_break(a);
    tell_answer(done, outside.trace)
}

/// Clears an address again, and tells whether it was set.
fn clear_break<'i, 'o, 't, 'd, I: Source, O: Sink, T: Sink, D: Devices>(
    debug: &mut Debug,
    a: u32,
    outside: &mut Outside<'i, 'o, 't, 'd, I, O, T, D>,
) -> Result<(), Broken>
    ensures does { Does (events_of (ScriptCommand.Clear a))
        (place_beside I.left I.faults O.held O.faults T.held T.faults D.state debug.old outside.old)
        (place_beside I.left I.faults O.held O.faults T.held T.faults D.state debug.new outside.new)
        (stop_in result) }
    ensures same { AreSame outside.old outside.new }
{
    let done = debug.clear_break(a);
    tell_answer(done, outside.trace)
}

/// Tells where the code is, and where each suspended caller.
fn crawl<'i, 'o, 't, 'd, I: Source, O: Sink, T: Sink, D: Devices>(
    debug: &Debug,
    outside: &mut Outside<'i, 'o, 't, 'd, I, O, T, D>,
) -> Result<(), Broken>
    ensures does { Does (events_of ScriptCommand.Where)
        (place_beside I.left I.faults O.held O.faults T.held T.faults D.state debug.now outside.old)
        (place_beside I.left I.faults O.held O.faults T.held T.faults D.state debug.now outside.new)
        (stop_in result) }
    ensures same { AreSame outside.old outside.new }
{
    tell_crawl(debug, outside.trace)
}
