// What the layers above see of a rack.
use super::answers::{Answer, Asked};

/// Slots, numbered from 0, that hold a device or none, and a journal of the asks that reached one, in
/// their order. No call is passed an allocator.
pub trait Devices {
    ghost use Rattle.std.specs.Prelude.{◌≡◌};
    ghost use Rattle.dev_rack.specs.Rack.{State};
    ghost use Rattle.dev_rack.specs.RackClauses.{Asks, Ejects};

    ghost state: { Self → State };

    /// Asks the device in a slot. At 4096 entries in the journal no device is asked any more.
    fn ask(&mut self, slot: u32, word: u32) -> Answer
        ensures { Asks (state self.old) slot word result (state self.new) };

    /// Gives up the device in a slot, within the call. `false` means that there was none.
    fn eject(&mut self, slot: u32) -> bool
        ensures { Ejects (state self.old) slot result (state self.new) };

    /// The asks that reached a device, in their order, each with its answer.
    fn journal(&self) -> &[Asked]
        ensures { result.now ≡ (state self.now).journal };
}
