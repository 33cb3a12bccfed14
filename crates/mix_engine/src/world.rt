// What a machine asks of what lies outside it.
ghost use Rattle.std.specs.Prelude.{◌≡◌, ◌<◌, length};
ghost use Rattle.big_memory.specs.StoresClauses.{OnlyFree};
ghost use Rattle.call_trace.specs.Lines.{ask_line, call_line, ret_line};
ghost use Rattle.proc_info.specs.Views.{params_of, signature};
ghost use Rattle.switch_frame.specs.RecordsClauses.{record_of};
ghost use Rattle.toolbox.specs.CallsClauses.{Blames, HeapLies, Hosts, place};
ghost use Rattle.toolbox.specs.declared.table.TheConstants.{FUNCTIONS};
ghost use Rattle.mix_engine.specs.Worlds.{KeepsTrace, Seen, Tells};
ghost use Rattle.mix_engine.specs.Worlds.Lent.{Lends};
ghost use Rattle.mix_engine.specs.Beside.{outside_lent, trace_lent};

use crate::outside::Outside;
use big_memory::Ram;
use call_trace::{put_ask, put_call, put_ret};
use dev_rack::{Answer, Devices};
use host_heap::Heap;
use mix_io::{Failed, Sink, Source};
use proc_info::Sig;
use switch_frame::{Active, Held};
use toolbox::{HostOut, host_call};

/// What lies outside a machine: streams and devices, for the calls of the host, and a trace of calls, returns and asks.
pub trait World {
    /// What it tells, and which streams and devices it is.
    ghost seen: { Self → Seen };

    /// Calls the host function with this number for code of the active set.
    fn call(&mut self, index: u32, active: &mut Active, ram: &mut Ram, heap: &mut Heap) -> HostOut
        requires index { index < FUNCTIONS }
        requires heap { HeapLies heap.old ram.old }
        ensures does { Hosts index result active.old active.new (place ram.old heap.old (seen self.old).outside) (place ram.new heap.new (seen self.new).outside) }
        ensures trace { KeepsTrace (seen self.old) (seen self.new) };

    /// Tells of a call that made a frame, with one argument for each parameter of its signature.
    fn tell_call(&mut self, held: &Held, sig: &Sig, args: &[u32]) -> Result<(), Failed>
        requires { length args.now ≡ length (params_of sig.now) }
        ensures { Tells (call_line (record_of held.now) (signature sig.now) args.now) (seen self.old) (seen self.new) result };

    /// Tells of an accepted return, with the result where the signature has one.
    fn tell_return(&mut self, sig: &Sig, value: u32) -> Result<(), Failed>
        ensures { Tells (ret_line (signature sig.now) value) (seen self.old) (seen self.new) result };

    /// Tells of an ask and what came of it.
    fn tell_ask(&mut self, slot: u32, word: u32, answer: Answer) -> Result<(), Failed>
        ensures { Tells (ask_line slot word answer) (seen self.old) (seen self.new) result };
}

impl<'i, 'o, 't, 'd, I: Source, O: Sink, T: Sink, D: Devices> World
    for Outside<'i, 'o, 't, 'd, I, O, T, D> {
    ghost seen = { λ o. record {
      outside = outside_lent I.left I.faults O.held O.faults D.state o;
      trace = trace_lent T.held T.faults o;
      lent = Lends o.input.ghost_name o.out.ghost_name o.trace.ghost_name o.rack.ghost_name;
    } };

    #[inline(always)]
    fn call(&mut self, index: u32, active: &mut Active, ram: &mut Ram, heap: &mut Heap) -> HostOut {
        host_call(index, active, ram, heap, self.rack, self.input, self.out)
    }

    #[inline(always)]
    fn tell_call(&mut self, held: &Held, sig: &Sig, args: &[u32]) -> Result<(), Failed> {
        put_call(self.trace, held, sig, args)
    }

    #[inline(always)]
    fn tell_return(&mut self, sig: &Sig, value: u32) -> Result<(), Failed> {
        put_ret(self.trace, sig, value)
    }

    #[inline(always)]
    fn tell_ask(&mut self, slot: u32, word: u32, answer: Answer) -> Result<(), Failed> {
        put_ask(self.trace, slot, word, answer)
    }
}
