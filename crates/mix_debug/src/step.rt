ghost use Rattle.std.specs.Prelude.{◌≡◌};
ghost use Rattle.mix_debug.specs.TrailsClauses.{is_done as is_done_by, step_of as step_by, stop_of};

use mixed_machine::Stop;

/// What a step forward came to.
#[derive(Clone, Copy, Debug, PartialEq, Eq)]
pub enum Step {
    /// It is done, and the program goes on.
    Next,
    /// The run ends here.
    End(Stop),
}

/// What the answer of a run of one step tells.
pub(crate) fn step_of(stop: Stop) -> Step
    ensures step { result ≡ step_by stop }
    ensures told { stop_of result ≡ stop }
{
    match stop {
        Stop::Limit => Step::Next,
        _ => Step::End(stop),
    }
}

/// Whether the step is done, and leads to another machine: an exit changes none.
pub(crate) fn is_done(stop: Stop) -> bool
    ensures { result ≡ is_done_by stop }
{
    match stop {
        Stop::Limit | Stop::TraceFault => true,
        _ => false,
    }
}
