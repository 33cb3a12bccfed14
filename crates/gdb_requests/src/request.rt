/// A process or a thread: a number, or any.
#[derive(Clone, Copy, Debug, PartialEq, Eq)]
pub enum Id {
    /// 0, -1, or not said.
    Any,
    /// The one with this number.
    Number(u32),
}

/// A thread of a process.
#[derive(Clone, Copy, Debug, PartialEq, Eq)]
pub struct Thread {
    pub process: Id,
    pub thread: Id,
}

/// What a thread is to do: one step, or to go on.
#[derive(Clone, Copy, Debug, PartialEq, Eq)]
pub struct Action {
    pub is_step: bool,
    pub thread: Thread,
}

/// What stops a run at an address: a breakpoint of either kind, or a write there.
#[derive(Clone, Copy, Debug, PartialEq, Eq)]
pub enum Point {
    Software,
    Hardware,
    Write,
}

/// What gdb says that it knows of.
#[derive(Clone, Copy, Debug, PartialEq, Eq)]
pub struct Features {
    /// `multiprocess+`: several processes.
    pub processes: bool,
    /// `swbreak+`: that a stop says that a breakpoint is there.
    pub breakpoints: bool,
}

/// What gdb asks for.
#[derive(Clone, Copy, Debug, PartialEq, Eq)]
pub enum Request {
    /// `qSupported`, and what gdb knows of.
    Supported(Features),
    /// `QStartNoAckMode`.
    NoAcknowledgements,
    /// `!`.
    Extended,
    /// `?`: why it stands.
    Reason,
    /// `Hg`: whose registers the next requests mean.
    SelectForRegisters(Thread),
    /// `Hc`: who is to run by the next requests.
    SelectForRunning(Thread),
    /// `qXfer:features:read:target.xml:`: from an offset, at most so many bytes.
    Description(u32, u32),
    /// `g`.
    Registers,
    /// `p`: one register.
    Register(u32),
    /// `m`: from an address, so many bytes.
    Memory(u32, u32),
    /// `vCont?`.
    ResumeWords,
    /// `vCont;`: the first action, and a second one for the other threads.
    Resume(Action, Option<Action>),
    /// `c`, `C`.
    Continue,
    /// `s`, `S`.
    Step,
    /// `bc`.
    BackContinue,
    /// `bs`.
    BackStep,
    /// `Z`: from an address, so many bytes, or of that kind.
    Insert(Point, u32, u32),
    /// `z`: the same is taken away.
    Remove(Point, u32, u32),
    /// `qfThreadInfo`.
    FirstThreads,
    /// `qsThreadInfo`.
    MoreThreads,
    /// `qC`.
    CurrentThread,
    /// `qAttached`.
    IsAttached(Id),
    /// `vAttach;`.
    Attach(Id),
    /// `T`.
    IsAlive(Thread),
    /// `qRcmd,`: a command of the user's; its text in hexadecimal digits begins at byte 6.
    Monitor,
    /// `D`.
    Detach(Id),
    /// `k`, `vKill;`.
    Kill(Id),
    /// `G`, `M`, `P`, `X`: registers or memory are to be changed.
    Change,
    /// Anything else.
    Unknown,
}
