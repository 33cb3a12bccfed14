// A machine that was kept, from its image to its end.
ghost use Rattle.std.specs.Prelude.{◌≤◌, length, option_copied};
ghost use Rattle.mix_bits.specs.declared.file.TheConstants.{IMAGE_BYTES};
ghost use Rattle.mix_engine.specs.Beside.{AreSame};
ghost use Rattle.mix_top.specs.inner.World.{EndsIn};
ghost use Rattle.mix_top.specs.WorldClauses.{keeping};
ghost use Rattle.mix_top.specs.Continuing.{ContinueWay};
ghost use Rattle.mix_top.specs.inner.Parts.{beside_lent};

use super::close::close_unrestored;
use super::ending::Ending;
use super::run::run_machine_beside;
use dev_rack::Devices;
use mix_engine::Outside;
use mix_image::restore;
use mix_io::{Keeper, Sink, Source};
use std::alloc::Global;

/// Makes the machine of an image, and runs it on for at most `steps` steps.
pub fn continue_image<'i, 'o, 't, 'd, I: Source, O: Sink, T: Sink, D: Devices, K: Keeper>(
    alloc: Global,
    image: &[u8],
    steps: u32,
    save: Option<&str>,
    outside: &mut Outside<'i, 'o, 't, 'd, I, O, T, D>,
    keep: &mut K,
) -> Ending
    requires { length image.now ≤ IMAGE_BYTES }
    ensures ends { EndsIn (option_copied save.entry) (ContinueWay (option_copied save.entry) steps image.now)
        (beside_lent I.left I.faults O.held O.faults T.held T.faults D.state outside.old (keeping (K.kept keep.old) (K.faults keep.old)))
        (beside_lent I.left I.faults O.held O.faults T.held T.faults D.state outside.new (keeping (K.kept keep.new) (K.faults keep.new)))
        result }
    ensures same { AreSame outside.old outside.new }
{
    match restore(alloc, image) {
        Ok(mut machine) => run_machine_beside(&mut machine, steps, save, outside, keep),
        Err(error) => Ending::without_steps(close_unrestored(error, outside.trace)),
    }
}
