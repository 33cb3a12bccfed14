// How a call ended.
ghost use Rattle.std.specs.Prelude.{◌≡◌};

/// The status of a call, and how many steps it did of a run: an exit is a step that is done, and a fault is none. Only the
/// steps of `run` and `continue` are counted.
#[derive(Clone, Copy, Debug, PartialEq, Eq)]
pub struct Ending {
    pub status: u8,
    pub steps: u32,
}

impl Ending {
    /// That of a call which did no step of a run.
    pub fn without_steps(status: u8) -> Self
        ensures status { result.status ≡ status }
        ensures steps { result.steps ≡ 0 }
    {
        Self { status, steps: 0 }
    }
}
