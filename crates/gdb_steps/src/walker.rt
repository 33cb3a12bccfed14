// What a walker holds.
ghost use Rattle.std.specs.Prelude.{◌≤◌, All, length, suc};
ghost use Rattle.gdb_steps.specs.inner.Held.{IsCounted, IsHeld, IsSafe, IsWithin};

use crate::breakpoints::Breakpoints;
use crate::real::Real;
use crate::replay::Replay;
use crate::snapshots::Snapshots;
use crate::used::Used;
use crate::watches::Watches;
use circular_buffer::HeapCircularBuffer;
use dev_rack::Devices;
use mix_debug::Debug;
use std::alloc::Global;

/// How many steps can be taken back at most without doing the run again: each takes 98 of the 1048576 bytes of history at least.
pub(crate) const MOST_STEPS: usize = 10_700;

/// A machine that walks forward and back, with what lies outside.
#[derive(Drop)]
pub struct Walker<D: Devices + Drop> {
    pub(crate) alloc: Global,
    pub(crate) debug: Debug,
    pub(crate) input: Vec<u8>,
    pub(crate) real: Real<D>,
    pub(crate) replay: Replay,
    pub(crate) used: Used,
    /// What was used up before the steps that can be taken back, the newest first.
    pub(crate) past: HeapCircularBuffer<Used>,
    pub(crate) steps: u64,
    pub(crate) furthest: u64,
    /// Machines that are kept on the way, to go back to.
    pub(crate) snapshots: Snapshots,
    /// How many are kept at the most, beside the first.
    pub(crate) most_kept: usize,
    pub(crate) breakpoints: Breakpoints,
    pub(crate) watches: Watches,
    ghost held: { IsHeld input.items real replay used },
    ghost kept: { All (IsWithin input.items real) past.items },
    ghost counted: { IsCounted past.items steps furthest },
    ghost safe: { All (IsSafe input.items real) snapshots },
    ghost few: { length snapshots ≤ suc most_kept },
}
