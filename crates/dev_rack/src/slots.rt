// The slots, each with a box of a device or without.
ghost use Rattle.std.specs.Prelude.{◌≡◌, IsSome, IfOk, is_some, map, slice_set};
ghost use Rattle.dev_rack.specs.SlotsClauses.{Heard, HeardAt};
ghost use Rattle.dev_rack.specs.Slots.{device_at};
ghost use Rattle.dev_rack.specs.Boxed.{seen, seen_slots};

use mix_bits::NoMemory;
use mix_io::{Device, Failed};
use std::alloc::Global;

/// Each device in a slot of its own, in order.
pub fn filled(
    alloc: Global,
    devices: Vec<Box<dyn Device>>,
) -> Result<Vec<Option<Box<dyn Device>>>, NoMemory>
    ensures { IfOk result (λ slots. slots.items ≡ map Some devices.items) }
{
    Ok(devices.into_iter().map(Some).collect(alloc)?)
}

pub fn holds_device(slots: &[Option<Box<dyn Device>>], slot: u32) -> bool
    ensures { result ≡ is_some (device_at (seen_slots faults told slots.now) slot) }
{
    match slots.get(slot as usize) {
        Some(place) => place.is_some(),
        None => false,
    }
}

fn ask(device: &mut Box<dyn Device>, word: u32) -> Result<u32, Failed>
    ensures { Heard (seen faults told device.old) (seen faults told device.new) word result }
{
    device.ask(word)
}

pub fn ask_at(slots: &mut [Option<Box<dyn Device>>], slot: u32, word: u32) -> Result<u32, Failed>
    requires { IsSome (device_at (seen_slots faults told slots.old) slot) }
    ensures { HeardAt (seen_slots faults told slots.old) (seen_slots faults told slots.new) slot word result }
{
    let Some(device) = &mut slots[slot as usize] else {
        unreachable!()
    };
    ask(device, word)
}

pub fn empty_at(slots: &mut [Option<Box<dyn Device>>], slot: u32)
    requires { IsSome (device_at (seen_slots faults told slots.old) slot) }
    ensures { seen_slots faults told slots.new ≡ slice_set (seen_slots faults told slots.old) slot None }
{
    slots[slot as usize] = None;
}
