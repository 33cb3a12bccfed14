ghost use Rattle.std.specs.Prelude.{◌≡◌, ◌≤◌, ◌++◌, ◌||◌, ◌∷◌, [], IfOk, OnOk, false, if◌then◌else◌, length, nat_lt};
ghost use Rattle.mixed_machine.specs.Machine.{IsWhole};
ghost use Rattle.switch_frame.specs.Records.{isa_of};
ghost use Rattle.gdb_steps.specs.Walkers.{IsFresh};

use crate::command::{Command, Tale, read_command};
use crate::halts::{does_end, halt_for, lesser, steps_for, until_for, was_cut};
use crate::notes::{Ending, append_note};
use crate::start::Start;
use crate::tales::{append_place, append_tale};
use crate::walks::{Bounds, go_on};
use dev_rack::Devices;
use gdb_answers::{Answer, append_answer};
use gdb_requests::Point;
use gdb_session::{Halt, Target};
use gdb_steps::{Halt as Came, Until, Walker};
use gdb_talk::{Goal, Walk};
use mix_bits::{Isa, NoMemory};
use std::alloc::Global;
use std::marker::Model;

/// How many steps a walk has at most, until that is changed.
const BUDGET: u32 = 100_000_000;

/// A run with which gdb is served.
#[derive(Drop)]
pub struct Served<D: Devices + Drop> {
    alloc: Global,
    walker: Walker<D>,
    budget: u32,
    is_traced: bool,
    is_end_told: bool,
}

impl<D: Devices + Drop> Model for Served<D> {
    ghost use Rattle.gdb_steps.specs.Walkers.{points_of, run_of};
    ghost use Rattle.look_gdb.specs.Views.{View};

    ghost Value = { View };

    ghost view = { λ s. record {
      run = run_of s.walker;
      points = points_of s.walker;
      budget = s.budget;
      most_kept = s.walker.most_kept;
      is_traced = s.is_traced;
      is_end_told = s.is_end_told;
    } };
}

impl<D: Devices + Drop> Served<D> {
    ghost use Rattle.look_gdb.specs.Halts.{is_cut, is_end};
    ghost use Rattle.look_gdb.specs.Notes.{note_of};
    ghost use Rattle.look_gdb.specs.Commands.{GoesTo, tale_text};
    ghost use Rattle.look_gdb.specs.Views.{Starts};
    ghost use Rattle.look_gdb.specs.Walks.{Goes, has_room, other_breaks, other_watches, range, without};

    /// With devices in so many slots from 0 on, none of which was asked.
    pub fn new(alloc: Global, start: Start, devices: D, slots: usize) -> Result<Served<D>, NoMemory>
        requires whole { IsWhole start.machine.body (isa_of start.machine.active) }
        requires few { slots ≤ 8 }
        requires fresh { IsFresh slots (D.state devices) }
        ensures { IfOk result (λ v. Starts start.machine start.input.items (D.state devices) slots start.settings v) }
    {
        let Start {
            machine,
            input,
            settings,
        } = start;
        Ok(Served {
            alloc,
            walker: Walker::new(
                alloc,
                machine,
                input,
                devices,
                slots,
                settings.keep as usize,
            )?,
            budget: BUDGET,
            is_traced: settings.is_traced,
            is_end_told: false,
        })
    }

    /// Walks back or forward, and puts what is told by the way into an empty buffer.
    fn go(&mut self, is_back: bool, bounds: Bounds, console: &mut Vec<u8>) -> Result<Came, NoMemory>
        requires { console.old.items ≡ [] }
        ensures goes { IfOk result (λ came. Goes is_back bounds.until bounds.steps came console.new.items self.old self.new) }
        ensures same { self.new ≡ record self.old { run = self.new.run; most_kept = self.new.most_kept } }
    {
        if is_back {
            self.walker.back(bounds.until, u64::from(bounds.steps))
        } else {
            go_on(
                self.alloc,
                &mut self.walker,
                bounds,
                self.is_traced,
                console,
            )
        }
    }

    /// Goes to the place behind so many steps, and puts what is told by the way, and where it came, into an empty buffer. It
    /// has as many steps for that as a walk of gdb's, and what is set to stop at stops it too. In front of the program's end
    /// it stays, as a walk does, and tells the end, if it was not told before.
    fn go_to(&mut self, steps: u32, console: &mut Vec<u8>) -> Result<(), NoMemory>
        requires { console.old.items ≡ [] }
        ensures { OnOk result (GoesTo self.old steps console.new.items self.new) }
    {
        let (here, there) = (self.walker.steps(), u64::from(steps));
        let bounds = Bounds {
            until: Until::Stopped,
            steps: lesser(here.abs_diff(there), self.budget),
        };
        let came = self.go(there < here, bounds, console)?;
        self.tell_end(Goal::Step, came, console)?;
        append_place(
            self.alloc,
            self.walker.debug(),
            self.walker.steps(),
            console,
        )
    }

    /// Tells what is told at the end of a walk, and takes note of the end of the program.
    fn tell_end(&mut self, goal: Goal, came: Came, console: &mut Vec<u8>) -> Result<(), NoMemory>
        ensures whole { OnOk result (is_cut came ≡ false) }
        ensures tells { OnOk result (console.new.items ≡ console.old.items ++ note_of self.old.is_end_told (isa_of self.old.run.here.machine.active) goal self.old.budget came) }
        ensures same { OnOk result (self.new ≡ record self.old { is_end_told = self.old.is_end_told || is_end came }) }
    {
        if was_cut(came) {
            return Err(NoMemory);
        }
        let ending = Ending {
            is_told: self.is_end_told,
            set: self.walker.machine().active.isa(),
            goal,
            budget: self.budget,
            came,
        };
        append_note(self.alloc, console, ending)?;
        self.is_end_told = self.is_end_told || does_end(came);
        Ok(())
    }

    /// Sets an address to stop at, behind all others, if there is room.
    fn place_break(&mut self, address: u32) -> bool
        ensures exact { result ≡ nat_lt (length (other_breaks self.old.points address)) 256 }
        ensures after { self.new ≡ record self.old { points = record self.old.points { breaks = if result then other_breaks self.old.points address ++ address ∷ [] else other_breaks self.old.points address } } }
    {
        let _was_set = self.walker.clear_break(address);
        self.walker.set_break(address)
    }

    /// Watches a range, behind all others, if there is room.
    fn place_watch(&mut self, address: u32, count: u32) -> bool
        ensures exact { result ≡ has_room Point.Write count (without Point.Write address count self.old.points) }
        ensures after { self.new ≡ record self.old { points = record self.old.points { watches = if result then other_watches self.old.points address count ++ range address count ∷ [] else other_watches self.old.points address count } } }
    {
        let _was_set = self.walker.clear_watch(address, count);
        self.walker.set_watch(address, count)
    }

    /// Puts what is told of the machine as it is into an empty buffer.
    fn tell_tale(&self, tale: Tale, console: &mut Vec<u8>) -> Result<(), NoMemory>
        requires { console.old.items ≡ [] }
        ensures { OnOk result (console.new.items ≡ tale_text tale self.now.run.here.machine self.now.run.steps) }
    {
        let walker = &self.walker;
        append_tale(self.alloc, tale, walker.debug(), walker.steps(), console)
    }

    /// Takes a point away, if it is there.
    fn clear(&mut self, point: Point, address: u32, count: u32)
        ensures { self.new ≡ record self.old { points = without point address count self.old.points } }
    {
        match point {
            Point::Software | Point::Hardware => {
                let _was_set = self.walker.clear_break(address);
            }
            Point::Write => {
                let _was_set = self.walker.clear_watch(address, count);
            }
        }
    }
}

impl<D: Devices + Drop> Target for Served<D> {
    ghost use Rattle.look_gdb.specs.Views.{scene_at};
    ghost use Rattle.look_gdb.specs.Commands.{Obeys};
    ghost use Rattle.look_gdb.specs.Walks.{Inserts, Removes, Walks};

    ghost scene = { λ v. scene_at v.run };

    ghost walks = { λ v way console halt w. Walks v way console halt w };

    ghost inserts = { λ v point address count set w. Inserts v point address count set w };

    ghost removes = { λ v point address count w. Removes v point address count w };

    ghost obeys = { λ v text console moved w. Obeys v text console moved w };

    fn set(&self) -> Isa {
        self.walker.machine().active.isa()
    }

    fn tell(&self, answer: Answer, buffer: &mut Vec<u8>) -> Result<(), NoMemory> {
        let machine = self.walker.machine();
        append_answer(
            buffer,
            answer,
            &machine.active,
            &machine.body.ram,
            machine.body.top,
        )
    }

    fn walk(&mut self, walk: Walk, console: &mut Vec<u8>) -> Result<Halt, NoMemory> {
        let bounds = Bounds {
            until: until_for(walk.goal),
            steps: steps_for(walk.goal, self.budget),
        };
        let came = self.go(walk.is_back, bounds, console)?;
        self.tell_end(walk.goal, came, console)?;
        Ok(halt_for(walk.goal, came))
    }

    fn insert(&mut self, point: Point, address: u32, count: u32) -> bool {
        match point {
            Point::Software => self.place_break(address),
            Point::Hardware => self.place_break(address),
            Point::Write => self.place_watch(address, count),
        }
    }

    fn remove(&mut self, point: Point, address: u32, count: u32) {
        self.clear(point, address, count);
    }

    fn obey(&mut self, text: &[u8], console: &mut Vec<u8>) -> Result<bool, NoMemory> {
        match read_command(text) {
            Command::Budget(budget) => {
                self.budget = budget;
                Ok(false)
            }
            Command::Go(steps) => {
                self.go_to(steps, console)?;
                Ok(true)
            }
            Command::Tell(tale) => {
                self.tell_tale(tale, console)?;
                Ok(false)
            }
        }
    }
}
