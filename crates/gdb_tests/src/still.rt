// A machine that stands still: 68K code with a few registers and bytes, in front of its end.
ghost use Rattle.switch_frame.specs.Chain.{Links, records};
ghost use Rattle.gdb_answers.specs.Answers.{scene_of};

use big_memory::Ram;
use gdb_answers::{Answer, Reason, append_answer};
use gdb_requests::Point;
use gdb_session::{Halt, Target};
use gdb_talk::{Goal, Walk};
use m68_isa::{Ccr, Regs68};
use mix_bits::{Isa, NoMemory};
use std::alloc::Global;
use switch_frame::Active;

#[derive(Drop)]
pub struct Still {
    active: Active,
    ram: Ram,
}

impl Still {
    pub fn new(alloc: Global) -> Result<Still, NoMemory> {
        let mut regs = Regs68::cleared();
        regs.d[1] = 0x0102_0304;
        regs.ccr = Ccr::from_bits(5);
        regs.pc = 0x1_0000;
        let mut ram = Ram::new(alloc, 131_072)?;
        ram.fix(0x1_FFFE, &[0xAB, 0xCD]);
        Ok(Still {
            active: Active::M68(regs),
            ram,
        })
    }
}

impl Target for Still {
    ghost scene = { λ s. scene_of s.active s.ram 0 };

    ghost walks = { λ _ _ _ _ _. Unit {0} };

    ghost inserts = { λ _ _ _ _ _ _. Unit {0} };

    ghost removes = { λ _ _ _ _ _. Unit {0} };

    ghost obeys = { λ _ _ _ _ _. Unit {0} };

    fn set(&self) -> Isa {
        self.active.isa()
    }

    fn tell(&self, answer: Answer, buffer: &mut Vec<u8>) -> Result<(), NoMemory> {
        has_no_frame(&self.ram);
        append_answer(buffer, answer, &self.active, &self.ram, 0)
    }

    fn walk(&mut self, walk: Walk, console: &mut Vec<u8>) -> Result<Halt, NoMemory> {
        Ok(match walk.goal {
            Goal::Stop if walk.is_back => Halt::Stopped(Reason::Begins),
            Goal::Stop => Halt::Exit(0x102),
            _ => {
                console.extend_from_slice(b"hi\n")?;
                Halt::Stopped(Reason::Breakpoint)
            }
        })
    }

    fn insert(&mut self, _point: Point, address: u32, _count: u32) -> bool {
        address != 0
    }

    fn remove(&mut self, _point: Point, _address: u32, _count: u32) {}

    fn obey(&mut self, text: &[u8], console: &mut Vec<u8>) -> Result<bool, NoMemory> {
        console.extend_from_slice(text)?;
        Ok(false)
    }
}

/// RAM has no frame where none is told of. It does nothing: the clause is its point.
pub fn has_no_frame(ram: &Ram)
    ensures { Links ram.now 0 (records ram.now.bytes 0) }
{
    ram.meets_invariant();
}
