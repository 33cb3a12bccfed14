// What stands between the end of a run and its end line.
ghost use Rattle.std.specs.Prelude.{◌≡◌, option_copied};
ghost use Rattle.switch_frame.specs.Records.{isa_of};
ghost use Rattle.mixed_machine.specs.Machine.{IsWhole};
ghost use Rattle.mix_top.specs.WorldClauses.{keeping};
ghost use Rattle.mix_top.specs.inner.Parts.{Keeps, due_at};

use mix_engine::Machine;
use mix_image::save;
use mix_io::{Failed, Keeper};
use mixed_machine::Stop;

/// The name under which a machine that stopped is to be kept: the one that is given, at the step limit.
pub fn due(stop: Stop, name: Option<&str>) -> Option<&str>
    ensures { option_copied result ≡ due_at (option_copied name.entry) stop }
{
    match stop {
        Stop::Limit => name,
        _ => None,
    }
}

/// Keeps the spelling of a machine under a name, if there is one.
pub fn keep_machine<K: Keeper>(
    machine: &Machine,
    name: Option<&str>,
    keep: &mut K,
) -> Result<(), Failed>
    requires { IsWhole machine.now.body (isa_of machine.now.active) }
    ensures { Keeps (option_copied name.entry) machine.now (keeping (K.kept keep.old) (K.faults keep.old)) (keeping (K.kept keep.new) (K.faults keep.new)) result }
{
    match name {
        Some(name) => save(machine, keep, name),
        None => Ok(()),
    }
}
