ghost use Rattle.std.specs.Prelude.{◌≡◌};
ghost use Rattle.gdb_talk.specs.Talks.{after, attached as attached_of, attached_by, attached_one, detached as detached_of, elsewhere, exited, first_talk, id_of, is_attached, looking as looking_of, name_of, numbered as numbered_by, other_set, running as running_of, set_numbered, stopped as stopped_of, stopped_set, who_is, who_of};

use crate::who::Who;
use gdb_answers::{Reason, ThreadName};
use gdb_requests::{Id, Request, Thread};
use mix_bits::{Isa, is_isa};

/// What gdb and a server have agreed on.
#[derive(Clone, Copy, Debug, PartialEq, Eq)]
pub struct Talk {
    /// Whether gdb knows several processes.
    pub processes: bool,
    /// Whether gdb wants to be told that a breakpoint is where the machine stopped.
    pub breakpoints: bool,
    /// Whether gdb is attached to the process of the 68K side.
    pub has_68k: bool,
    /// Whether gdb is attached to that of the PowerPC side.
    pub has_ppc: bool,
    /// The process whose registers are asked for.
    pub looked_at: Isa,
    /// The process that is to run, if it is one in particular.
    pub running: Option<Isa>,
    /// Whether packets are acknowledged.
    pub acknowledges: bool,
    /// Why the machine stands where it does.
    pub reason: Reason,
}

impl Talk {
    /// Before the first request gdb is attached to the process of the active set.
    pub fn new(active: Isa) -> Talk
        ensures { result ≡ first_talk active }
    {
        Talk {
            processes: false,
            breakpoints: false,
            has_68k: is_isa(active, Isa::M68),
            has_ppc: is_isa(active, Isa::Ppc),
            looked_at: active,
            running: None,
            acknowledges: true,
            reason: Reason::Stepped,
        }
    }

    /// Takes note of a request, while code of a set is active.
    pub fn note(&mut self, active: Isa, request: Request)
        ensures { self.new ≡ after active self.old request }
    {
        match request {
            Request::Supported(features) => {
                self.processes = features.processes;
                self.breakpoints = features.breakpoints;
            }
            Request::NoAcknowledgements => self.acknowledges = false,
            Request::Reason => self.looked_at = self.stopped_set(active),
            Request::SelectForRegisters(thread) => self.look_at(self.who(thread)),
            Request::SelectForRunning(thread) => self.run(self.who(thread)),
            Request::Attach(id) => self.attach(attachable(self.processes, id)),
            Request::Detach(id) => self.detach(self.who_is(id)),
            Request::Kill(id) => self.detach(self.who_is(id)),
            _ => {}
        }
    }

    /// Takes note of a stop, while code of a set is active: its process is looked at.
    pub fn stop(&mut self, active: Isa, reason: Reason)
        ensures { self.new ≡ stopped_of active reason self.old }
    {
        self.looked_at = self.stopped_set(active);
        self.reason = reason;
    }

    /// Takes note that the machine went elsewhere by a command: the reason of the last stop holds no more.
    pub fn go_elsewhere(&mut self)
        ensures { self.new ≡ elsewhere self.old }
    {
        self.reason = Reason::Stepped;
    }

    /// Takes note that gdb was told of the end of the program, while code of a set is active: the process that a stop names
    /// is gone.
    pub fn exit(&mut self, active: Isa)
        ensures { self.new ≡ exited active self.old }
    {
        self.detach(Who::One(self.stopped_set(active)));
    }

    /// Whether gdb is attached to the process of a set.
    pub fn is_attached(&self, set: Isa) -> bool
        ensures { result ≡ is_attached self.now set }
    {
        match set {
            Isa::M68 => self.has_68k,
            Isa::Ppc => self.has_ppc,
        }
    }

    /// The set whose process a stop names.
    pub fn stopped_set(&self, active: Isa) -> Isa
        ensures { result ≡ stopped_set self.now active }
    {
        if self.is_attached(active) {
            active
        } else {
            other(active)
        }
    }

    /// The name of the thread of a set's process.
    pub fn name_of(&self, set: Isa) -> ThreadName
        ensures { result ≡ name_of self.now set }
    {
        if self.processes {
            ThreadName::Of(set)
        } else {
            ThreadName::Only
        }
    }

    /// Whom an id means.
    pub fn who_is(&self, id: Id) -> Who
        ensures { result ≡ who_is self.now id }
    {
        match id {
            Id::Any => Who::Anyone,
            Id::Number(number) => self.numbered(number),
        }
    }

    fn numbered(&self, number: u32) -> Who
        ensures { result ≡ numbered_by self.now number }
    {
        if self.processes {
            self.attached_one(set_numbered(number))
        } else if number == 1 {
            Who::One(self.looked_at)
        } else {
            Who::Nobody
        }
    }

    fn attached_one(&self, set: Option<Isa>) -> Who
        ensures { result ≡ attached_one self.now set }
    {
        match set {
            Some(set) => {
                if self.is_attached(set) {
                    Who::One(set)
                } else {
                    Who::Nobody
                }
            }
            None => Who::Nobody,
        }
    }

    /// Whom a thread means.
    pub fn who(&self, thread: Thread) -> Who
        ensures { result ≡ who_of self.now thread }
    {
        self.who_is(id_of(thread.process, thread.thread))
    }

    fn look_at(&mut self, who: Who)
        ensures { self.new ≡ looking_of self.old who }
    {
        if let Who::One(set) = who {
            self.looked_at = set;
        }
    }

    fn run(&mut self, who: Who)
        ensures { self.new ≡ running_of self.old who }
    {
        match who {
            Who::Anyone => self.running = None,
            Who::One(set) => self.running = Some(set),
            Who::Nobody => {}
        }
    }

    fn attach(&mut self, set: Option<Isa>)
        ensures { self.new ≡ attached_of self.old set }
    {
        match set {
            Some(Isa::M68) => {
                self.has_68k = true;
                self.looked_at = Isa::M68;
            }
            Some(Isa::Ppc) => {
                self.has_ppc = true;
                self.looked_at = Isa::Ppc;
            }
            None => {}
        }
    }

    pub(crate) fn detach(&mut self, who: Who)
        ensures { self.new ≡ detached_of self.old who }
    {
        match who {
            Who::Anyone => {
                self.has_68k = false;
                self.has_ppc = false;
            }
            Who::One(Isa::M68) => {
                self.has_68k = false;
                self.looked_at = Isa::Ppc;
                self.running = None;
            }
            Who::One(Isa::Ppc) => {
                self.has_ppc = false;
                self.looked_at = Isa::M68;
                self.running = None;
            }
            Who::Nobody => {}
        }
    }
}

fn other(set: Isa) -> Isa
    ensures { result ≡ other_set set }
{
    match set {
        Isa::M68 => Isa::Ppc,
        Isa::Ppc => Isa::M68,
    }
}

fn set_numbered(number: u32) -> Option<Isa>
    ensures { result ≡ set_numbered number }
{
    match number {
        1 => Some(Isa::M68),
        2 => Some(Isa::Ppc),
        _ => None,
    }
}

fn id_of(process: Id, thread: Id) -> Id
    ensures { result ≡ id_of process thread }
{
    match process {
        Id::Any => thread,
        Id::Number(_) => process,
    }
}

/// The set whose process gdb may attach to by an id.
pub fn attachable(processes: bool, id: Id) -> Option<Isa>
    ensures { result ≡ attached_by processes id }
{
    match id {
        Id::Number(number) => {
            if processes {
                set_numbered(number)
            } else {
                None
            }
        }
        Id::Any => None,
    }
}
