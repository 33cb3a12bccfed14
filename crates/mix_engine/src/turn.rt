ghost use Rattle.std.specs.Prelude.{◌≡◌};
ghost use Rattle.mix_engine.specs.inner.Turns.{turn_of};

use mixed_machine::Stop;
use switch_frame::Active;

/// How the run of one instruction set ends.
#[derive(Clone, Copy)]
pub enum Turn {
    /// The caller that was innermost at entry goes on, with these registers.
    Back(Active),
    /// The machine stops, with these registers.
    Stop(Active, Stop),
}

/// The same without the registers.
#[derive(Clone, Copy)]
pub enum TurnEnd {
    Back,
    Stop(Stop),
}

impl TurnEnd {
    /// With the registers.
    pub fn turn(self, active: Active) -> Turn
        ensures { result ≡ turn_of active self }
    {
        match self {
            TurnEnd::Back => Turn::Back(active),
            TurnEnd::Stop(stop) => Turn::Stop(active, stop),
        }
    }
}
