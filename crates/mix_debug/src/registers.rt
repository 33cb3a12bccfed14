// A register file is written over another.
ghost use Rattle.std.specs.Prelude.{◌≡◌};

use m68_isa::Regs68;
use ppc_isa::RegsPpc;
use switch_frame::Active;

/// Writes a register file over another, register by register where both are of one set.
#[inline(always)]
pub fn put_file(to: &mut Active, file: &Active)
    ensures { to.new ≡ file.now }
{
    match file {
        Active::M68(regs) => put_68k(to, regs),
        Active::Ppc(regs) => put_ppc(to, regs),
    }
}

#[inline(always)]
fn put_68k(to: &mut Active, regs: &Regs68)
    ensures { to.new ≡ Active.M68 regs.now }
{
    match to {
        Active::M68(file) => *file = *regs,
        Active::Ppc(_) => put_other_68k(to, regs),
    }
}

#[inline(always)]
fn put_ppc(to: &mut Active, regs: &RegsPpc)
    ensures { to.new ≡ Active.Ppc regs.now }
{
    match to {
        Active::Ppc(file) => {
            let (cr, lr, ctr, xer) = (regs.cr, regs.lr, regs.ctr, regs.xer);
            let pc = regs.pc;
            file.gpr = regs.gpr;
            file.cr = cr;
            file.lr = lr;
            file.ctr = ctr;
            file.xer = xer;
            file.pc = pc;
        }
        Active::M68(_) => put_other_ppc(to, regs),
    }
}

/// Writes a register file where one of the other set stood.
#[cold]
#[inline(never)]
fn put_other_68k(to: &mut Active, regs: &Regs68)
    ensures { to.new ≡ Active.M68 regs.now }
{
    *to = Active::M68(*regs);
}

#[cold]
#[inline(never)]
fn put_other_ppc(to: &mut Active, regs: &RegsPpc)
    ensures { to.new ≡ Active.Ppc regs.now }
{
    *to = Active::Ppc(*regs);
}
