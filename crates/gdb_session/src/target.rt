//! What a debugger needs of a machine.
ghost use Rattle.std.specs.Prelude.{◌≡◌, ℕ, ◌++◌, List, IfOk, OnOk, Bool, [], false};
ghost use Rattle.switch_frame.specs.Records.{isa_of};
ghost use Rattle.gdb_answers.specs.Answers.{Scene, answer_text};
ghost use Rattle.gdb_requests.specs.declared.request.Point.{Point as PointOf};
ghost use Rattle.gdb_talk.specs.declared.deed.Walk.{Walk as Way};
ghost use Rattle.gdb_session.specs.declared.target.Halt.{Halt as HaltOf};

use gdb_answers::{Answer, Reason};
use gdb_requests::Point;
use gdb_talk::Walk;
use mix_bits::{Isa, NoMemory};

/// How a walk ended.
#[derive(Clone, Copy, Debug, PartialEq, Eq)]
pub enum Halt {
    /// The machine stands, for this reason.
    Stopped(Reason),
    /// The machine stands in front of the program's end with this code.
    Exit(u32),
}

/// A machine that gdb looks at and that walks forward and back.
pub trait Target {
    /// What gdb sees of it.
    ghost scene: { Self → Scene };

    /// Where a walk leads, what it tells on the console, and how it ends.
    ghost walks: { Self → Way → List ℕ → HaltOf → Self → Type 0 };

    /// Whether a point could be set: its kind, where, how many bytes.
    ghost inserts: { Self → PointOf → ℕ → ℕ → Bool → Self → Type 0 };

    ghost removes: { Self → PointOf → ℕ → ℕ → Self → Type 0 };

    /// What a command of the user's does, what it tells on the console, and whether the machine went elsewhere by it.
    ghost obeys: { Self → List ℕ → List ℕ → Bool → Self → Type 0 };

    /// The active set.
    fn set(&self) -> Isa
        ensures { result ≡ isa_of (scene self.now).active };

    /// Appends the data of a packet that is an answer.
    fn tell(&self, answer: Answer, buffer: &mut Vec<u8>) -> Result<(), NoMemory>
        ensures { OnOk result (buffer.new.items ≡ buffer.old.items ++ answer_text (scene self.now) answer) };

    /// Walks, and puts what comes to the console into an empty buffer.
    fn walk(&mut self, walk: Walk, console: &mut Vec<u8>) -> Result<Halt, NoMemory>
        requires { console.old.items ≡ [] }
        ensures { IfOk result (λ halt. walks self.old walk console.new.items halt self.new) };

    /// Sets a point to stop at, and says whether there was room for it.
    fn insert(&mut self, point: Point, address: u32, count: u32) -> bool
        ensures done { inserts self.old point address count result self.new }
        ensures same { scene self.new ≡ scene self.old };

    /// Takes a point away, if it is there.
    fn remove(&mut self, point: Point, address: u32, count: u32)
        ensures done { removes self.old point address count self.new }
        ensures same { scene self.new ≡ scene self.old };

    /// Does a command that the user gives behind `monitor`, puts what it tells on the console into an empty buffer, and says
    /// whether the machine went elsewhere by it.
    fn obey(&mut self, text: &[u8], console: &mut Vec<u8>) -> Result<bool, NoMemory>
        requires { console.old.items ≡ [] }
        ensures done { IfOk result (λ moved. obeys self.old text.now console.new.items moved self.new) }
        ensures same { IfOk result (λ moved. moved ≡ false → scene self.new ≡ scene self.old) };
}
