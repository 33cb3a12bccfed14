// What is kept of a run as it goes: its last steps, its last jump, and how low each set's stack pointer came.
use crate::step::Step;
use circular_buffer::HeapCircularBuffer;
use mix_bits::{Isa, NoMemory};
use std::alloc::Global;

/// How many bytes an instruction has at most.
const LONGEST: u32 = 10;

/// Equal steps that came one behind the other: the first of them, where the last one stood, and how many there were.
#[derive(Drop)]
pub struct Run {
    pub first: Step,
    pub last_at: u32,
    pub times: u32,
}

/// A step by its number behind which the program went on elsewhere, and where.
#[derive(Drop)]
pub struct Jump {
    pub from: Step,
    pub number: u32,
    pub to: u32,
}

/// A stack pointer, and the number of the step that began with it.
#[derive(Clone, Copy)]
pub struct Low {
    pub sp: u32,
    pub number: u32,
}

/// What is kept of a run.
#[derive(Drop)]
pub struct History {
    runs: HeapCircularBuffer<Run>,
    pub jump: Option<Jump>,
    pub lowest_m68: Option<Low>,
    pub lowest_ppc: Option<Low>,
}

impl History {
    /// Of no step yet. It keeps so many runs of equal steps, the last ones.
    pub fn new(alloc: Global, most: u32) -> Result<History, NoMemory> {
        Ok(History {
            runs: HeapCircularBuffer::with_capacity(alloc, most as usize)?,
            jump: None,
            lowest_m68: None,
            lowest_ppc: None,
        })
    }

    /// Keeps a step that was done: its number, the stack pointer before it, and the pc behind it, where the program goes
    /// on.
    pub fn follow(&mut self, step: Step, number: u32, sp: u32, next: Option<u32>) {
        self.lower(step.set, Low { sp, number });
        if let Some(to) = next {
            self.jump_from(&step, number, to);
        }
        self.keep(step);
    }

    /// Keeps a step behind which the program went on elsewhere.
    fn jump_from(&mut self, step: &Step, number: u32, to: u32) {
        if leaves(step, to) {
            let from = step.copy();
            self.jump = Some(Jump { from, number, to });
        }
    }

    /// Keeps a stack pointer that is lower than those before.
    fn lower(&mut self, set: Isa, low: Low) {
        match set {
            Isa::M68 => self.lowest_m68 = Some(lower_of(self.lowest_m68, low)),
            Isa::Ppc => self.lowest_ppc = Some(lower_of(self.lowest_ppc, low)),
        }
    }

    /// Puts a step behind those that are kept.
    fn keep(&mut self, step: Step) {
        let Some(run) = self.runs.pop_back() else {
            self.push(one(step));
            return;
        };
        if run.first.is_like(&step) {
            self.push(Run {
                first: run.first,
                last_at: step.at,
                times: run.times.saturating_add(1),
            });
        } else {
            self.push(run);
            self.push(one(step));
        }
    }

    fn push(&mut self, run: Run) {
        let _oldest = self.runs.push_back(run);
    }

    /// The runs that are kept, the last one at the end.
    pub fn runs(&mut self) -> &[Run] {
        self.runs.make_contiguous()
    }
}

/// A run of one step.
fn one(step: Step) -> Run {
    let last_at = step.at;
    Run {
        first: step,
        last_at,
        times: 1,
    }
}

/// The lower stack pointer of two, or the first of equal ones.
fn lower_of(before: Option<Low>, now: Low) -> Low {
    match before {
        Some(before) if before.sp <= now.sp => before,
        _ => now,
    }
}

/// Whether what follows a step does not stand right behind it: it stands before it, or further than an instruction reaches.
fn leaves(step: &Step, next: u32) -> bool {
    next <= step.at || LONGEST < next - step.at
}
