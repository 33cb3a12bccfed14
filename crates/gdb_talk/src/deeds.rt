ghost use Rattle.std.specs.Prelude.{◌≡◌};
ghost use Rattle.gdb_talk.specs.Talks.{detached as detached_of};
ghost use Rattle.gdb_talk.specs.Deeds.{accepted as accepted_by, any_step, attaching as attaching_by, chosen as chosen_by, deed_of, detaching as detaching_by, exit_answer, going as going_by, killing as killing_by, leaving as leaving_by, resumed as resumed_by, second_action as second_by, stepping as stepping_by, stop_answer, threads as threads_told, threads_by, told_reason};

use crate::deed::{Deed, Goal, Walk};
use crate::talk::{Talk, attachable};
use crate::who::Who;
use gdb_answers::{Answer, Reason, ThreadName};
use gdb_requests::{Action, Id, Request};
use mix_bits::Isa;

impl Talk {
    /// What is done at a request, while code of a set is active.
    pub fn deed(&self, active: Isa, request: Request) -> Deed
        ensures { result ≡ deed_of active self.now request }
    {
        match request {
            Request::Supported(features) => Deed::Answer(Answer::Supported(features.processes)),
            Request::NoAcknowledgements => Deed::Answer(Answer::Done),
            Request::Extended => Deed::Answer(Answer::Done),
            Request::Reason => Deed::Answer(self.stop_answer(active, self.reason)),
            Request::SelectForRegisters(thread) => Deed::Answer(accepted(self.who(thread))),
            Request::SelectForRunning(thread) => Deed::Answer(accepted(self.who(thread))),
            Request::IsAlive(thread) => Deed::Answer(accepted(self.who(thread))),
            Request::Description(offset, count) => {
                Deed::Answer(Answer::Description(self.looked_at, offset, count))
            }
            Request::Registers => Deed::Answer(Answer::Registers(self.looked_at)),
            Request::Register(number) => Deed::Answer(Answer::Register(self.looked_at, number)),
            Request::Memory(address, count) => Deed::Answer(Answer::Memory(address, count)),
            Request::ResumeWords => Deed::Answer(Answer::ResumeWords),
            Request::Resume(first, second) => self.resume(first, second),
            Request::Continue => go(false),
            Request::Step => self.step(false, chosen(self.running)),
            Request::BackContinue => go(true),
            Request::BackStep => self.step(true, chosen(self.running)),
            Request::Insert(point, address, count) => Deed::Insert(point, address, count),
            Request::Remove(point, address, count) => Deed::Remove(point, address, count),
            Request::FirstThreads => Deed::Answer(self.threads()),
            Request::MoreThreads => Deed::Answer(Answer::NoMoreThreads),
            Request::CurrentThread => Deed::Answer(Answer::Current(self.name_of(self.looked_at))),
            Request::IsAttached(_) => Deed::Answer(Answer::IsAttached),
            Request::Attach(id) => self.attaching(attachable(self.processes, id)),
            Request::Monitor => Deed::Command,
            Request::Detach(id) => self.detaching(self.who_is(id)),
            Request::Kill(id) => self.killing(id),
            Request::Change => Deed::Answer(Answer::Refused),
            Request::Unknown => Deed::Answer(Answer::Unknown),
        }
    }

    /// How a stop is told, while code of a set is active.
    pub fn stop_answer(&self, active: Isa, reason: Reason) -> Answer
        ensures { result ≡ stop_answer active self.now reason }
    {
        Answer::Stopped(self.name_of(self.stopped_set(active)), self.told(reason))
    }

    /// Why the machine stands, as gdb wants to be told it.
    fn told(&self, reason: Reason) -> Reason
        ensures { result ≡ told_reason self.now reason }
    {
        match reason {
            Reason::Breakpoint => {
                if self.breakpoints {
                    Reason::Breakpoint
                } else {
                    Reason::Stepped
                }
            }
            _ => reason,
        }
    }

    /// How the end of the program is told, while code of a set is active.
    pub fn exit_answer(&self, active: Isa, code: u32) -> Answer
        ensures { result ≡ exit_answer active self.now code }
    {
        Answer::Exited(self.name_of(self.stopped_set(active)), code)
    }

    fn resume(&self, first: Action, second: Option<Action>) -> Deed
        ensures { result ≡ resumed_by self.now first second }
    {
        if first.is_step {
            self.step(false, self.who(first.thread))
        } else {
            self.resume_second(second)
        }
    }

    fn resume_second(&self, second: Option<Action>) -> Deed
        ensures { result ≡ second_by self.now second }
    {
        match second {
            Some(action) => {
                if action.is_step {
                    self.step(false, self.who(action.thread))
                } else {
                    go(false)
                }
            }
            None => go(false),
        }
    }

    fn step(&self, is_back: bool, who: Who) -> Deed
        ensures { result ≡ stepping_by self.now is_back who }
    {
        match who {
            Who::Anyone => walk(is_back, self.step_of_any()),
            Who::One(set) => walk(is_back, Goal::StepOf(set)),
            Who::Nobody => Deed::Answer(Answer::Refused),
        }
    }

    fn step_of_any(&self) -> Goal
        ensures { result ≡ any_step self.now }
    {
        if self.processes {
            Goal::Step
        } else {
            Goal::StepOf(self.looked_at)
        }
    }

    fn threads(&self) -> Answer
        ensures { result ≡ threads_told self.now }
    {
        if self.processes {
            threads_of(self.has_68k, self.has_ppc)
        } else {
            Answer::Thread(ThreadName::Only)
        }
    }

    fn attaching(&self, set: Option<Isa>) -> Deed
        ensures { result ≡ attaching_by self.now set }
    {
        match set {
            Some(set) => Deed::Answer(Answer::Stopped(self.name_of(set), self.told(self.reason))),
            None => Deed::Answer(Answer::Refused),
        }
    }

    fn detaching(&self, who: Who) -> Deed
        ensures { result ≡ detaching_by self.now who }
    {
        match who {
            Who::Anyone => Deed::Leave,
            Who::One(_) => self.without(who).leaving(),
            Who::Nobody => Deed::Answer(Answer::Refused),
        }
    }

    fn without(mut self, who: Who) -> Talk
        ensures { result ≡ detached_of self who }
    {
        self.detach(who);
        self
    }

    fn leaving(&self) -> Deed
        ensures { result ≡ leaving_by self.now }
    {
        if self.has_68k || self.has_ppc {
            Deed::Answer(Answer::Done)
        } else {
            Deed::Leave
        }
    }

    fn killing(&self, id: Id) -> Deed
        ensures { result ≡ killing_by self.now id }
    {
        match id {
            Id::Any => Deed::End,
            Id::Number(_) => self.detaching(self.who_is(id)),
        }
    }
}

fn walk(is_back: bool, goal: Goal) -> Deed
    ensures { result ≡ Deed.Walk (record { is_back = is_back; goal = goal }) }
{
    Deed::Walk(Walk { is_back, goal })
}

fn go(is_back: bool) -> Deed
    ensures { result ≡ going_by is_back }
{
    walk(is_back, Goal::Stop)
}

fn accepted(who: Who) -> Answer
    ensures { result ≡ accepted_by who }
{
    match who {
        Who::Anyone => Answer::Done,
        Who::One(_) => Answer::Done,
        Who::Nobody => Answer::Refused,
    }
}

fn chosen(running: Option<Isa>) -> Who
    ensures { result ≡ chosen_by running }
{
    match running {
        Some(set) => Who::One(set),
        None => Who::Anyone,
    }
}

fn threads_of(has_68k: bool, has_ppc: bool) -> Answer
    ensures { result ≡ threads_by has_68k has_ppc }
{
    match (has_68k, has_ppc) {
        (true, true) => Answer::BothThreads,
        (true, false) => Answer::Thread(ThreadName::Of(Isa::M68)),
        (false, true) => Answer::Thread(ThreadName::Of(Isa::Ppc)),
        (false, false) => Answer::NoMoreThreads,
    }
}
