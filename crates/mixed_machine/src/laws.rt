ghost use Rattle.mixed_machine.specs.laws.CrossingLaws.{CountBegins, CountExits, CountFaults, CountGoesOn, CountLimit};
ghost use Rattle.mixed_machine.specs.laws.Events.{BeginsAt, CalleeCameBack, CalleeStopped, ComesBackAt, CutGoesOn, ExitsAt, FaultsAt, GoesOnAt, LimitAt, OutBreaksAt, ReadBreaksAt, StopsImply, TraceBreaksAt};
ghost use Rattle.mixed_machine.specs.laws.StepLaws.{StepsAreKinds, TrapsNeverCross};
ghost use Rattle.mixed_machine.specs.laws.Laws.{AnswersJoin, BacksContinue, BacksStay, CutsContinue, EndsReach, EndsStay, LimitsAreLast, LogsContinue, NeverBack, NoAnswers, NoStepsStay, RunsContinue, ToldJoins, ToldNothing, TookSplits};

/// Laws of single steps. It does nothing: the clauses are its point.
///
/// A step suspends a caller, gives the innermost one up, or leaves the callers; it takes a block of the
/// heap, gives one up, or leaves the heap; and it leaves what the machine was started with. What a trap
/// calls never goes on into other code.
pub fn step_laws()
    ensures kinds { StepsAreKinds }
    ensures traps { TrapsNeverCross }
{}

/// Laws of runs. It does nothing: the clauses are its point.
///
/// No steps lead only to where they began. A run of `n + m` steps is a run of `n` steps and then one of
/// `m`; an end stays where more steps are allowed. A run until fewer than `e` callers are suspended is a
/// run until fewer than `d` are, for any greater `d`, and goes on where that one came back. A run that was
/// cut at its step limit and continued is the uncut run, with what it put and took, and with the answers of
/// the devices in both; what it puts is what its first steps put, and then the others.
pub fn run_laws()
    ensures none { NoStepsStay }
    ensures continues { RunsContinue }
    ensures stays { EndsStay }
    ensures backs_stay { BacksStay }
    ensures last { LimitsAreLast }
    ensures backs { BacksContinue }
    ensures reaches { EndsReach }
    ensures never_back { NeverBack }
    ensures cuts { CutsContinue }
    ensures logs { LogsContinue }
{}

/// Laws of what calls take from the outside, one after the other. It does nothing: the clauses are its point.
///
/// What was taken by calls and by more of them is what was taken by all, and so are the answers of the devices.
pub fn outside_laws()
    ensures splits { TookSplits }
    ensures joins { ToldJoins }
    ensures nothing { ToldNothing }
    ensures none { NoAnswers }
    ensures more { AnswersJoin }
{}

/// Laws of a run of a machine in memory, one event at a time. It does nothing: the clauses are its point.
///
/// A run begins, goes on by a step, comes back, ends at the step limit, by an exit, a fault or a failure of
/// the outside; and it goes on, or stops, as a callee's run did that was part of it, or as one did that
/// continued it where it was cut.
pub fn event_laws()
    ensures begins { BeginsAt }
    ensures goes_on { GoesOnAt }
    ensures comes_back { ComesBackAt }
    ensures limit { LimitAt }
    ensures exits { ExitsAt }
    ensures faults { FaultsAt }
    ensures read_breaks { ReadBreaksAt }
    ensures out_breaks { OutBreaksAt }
    ensures trace_breaks { TraceBreaksAt }
    ensures callee_back { CalleeCameBack }
    ensures callee_stopped { CalleeStopped }
    ensures cut { CutGoesOn }
    ensures implied { StopsImply }
{}

/// Laws of a run that is done a step at a time, with the frames that its steps make and give up. It does
/// nothing: the clauses are its point.
pub fn crossing_laws()
    ensures begins { CountBegins }
    ensures goes_on { CountGoesOn }
    ensures exits { CountExits }
    ensures faults { CountFaults }
    ensures limit { CountLimit }
{}
