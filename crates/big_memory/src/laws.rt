ghost use Rattle.big_memory.specs.laws.Laws.{BytesKeepRam, BytesOfSize, BytesStayBeside, CopiesAreFree, DoneIsFree, FreeJoins, FreeKeepsPage, FreeKeepsRam, FreeKeepsRefusals, FreeTests, InMemoryWithin, KeepsRefusals, LoadsBack, LoadsPart, MarksKeepRam, MarksOfRange, NothingIsFree, OpenBelowFloor, OpenInMemory, OpenPasses, PassesOpen, PassesWithin, ProbePasses, ProbeRefuses, SamePart, StoredLoads, StoresAreFree, TestsFree};
ghost use Rattle.big_memory.specs.laws.NumberLaws.{BytesJoin, FourLongs, LengthOfBytes, LengthOfLongs, LoadsLong, LoadsNumber, LongFits, LongInPart, LongOfLongs, LongOfPart, LongReadsBack, LongsAgain, LongsFit, LongsOfPart, LongsSplit, NumberInPart, SameNumber, WritesJoin};
ghost use Rattle.big_memory.specs.laws.PutLaws.{PutApart, PutFrom, PutHoldsInside, PutInside, PutJoins, PutKeepsBeside, PutKeepsLength, PutNothing, PutOver, PutReadsBack, PutReadsBeside, PutReadsInside, PutRun, PutSame};

/// What follows from the definitions of memory. It does nothing: the clauses are its point.
pub fn memory_laws()
    ensures within { PassesWithin }
    ensures stays { KeepsRefusals }
    ensures reads_back { LoadsBack }
    ensures loads { LoadsPart }
    ensures inside { InMemoryWithin }
    ensures bytes { BytesKeepRam }
    ensures marks { MarksKeepRam }
    ensures marked { MarksOfRange }
    ensures passes { OpenPasses }
    ensures passing { PassesOpen }
    ensures tests { TestsFree }
    ensures tested { FreeTests }
    ensures below { OpenBelowFloor }
    ensures nothing { NothingIsFree }
    ensures joins { FreeJoins }
    ensures stores { StoresAreFree }
    ensures done { DoneIsFree }
    ensures copies { CopiesAreFree }
    ensures ram { FreeKeepsRam }
    ensures refusals { FreeKeepsRefusals }
    ensures page { FreeKeepsPage }
    ensures beside { BytesStayBeside }
    ensures stored { StoredLoads }
    ensures size { BytesOfSize }
    ensures there { OpenInMemory }
    ensures probe_passes { ProbePasses }
    ensures probe_refuses { ProbeRefuses }
    ensures same { SamePart }
{}

/// What follows from the definition of bytes with a piece replaced. It does nothing: the clauses are
/// its point.
pub fn put_laws()
    ensures length { PutKeepsLength }
    ensures nothing { PutNothing }
    ensures reads_back { PutReadsBack }
    ensures reads_inside { PutReadsInside }
    ensures reads_beside { PutReadsBeside }
    ensures holds { PutHoldsInside }
    ensures beside { PutKeepsBeside }
    ensures same { PutSame }
    ensures over { PutOver }
    ensures inside { PutInside }
    ensures apart { PutApart }
    ensures joins { PutJoins }
    ensures from { PutFrom }
    ensures run { PutRun }
{}

/// What follows from the definitions of numbers in bytes. It does nothing, either.
pub fn number_laws()
    ensures number { NumberInPart }
    ensures long { LongInPart }
    ensures loads { LoadsNumber }
    ensures loads_long { LoadsLong }
    ensures reads_back { LongReadsBack }
    ensures each { LongOfLongs }
    ensures count { LengthOfLongs }
    ensures length { LengthOfBytes }
    ensures joins { BytesJoin }
    ensures one { LongOfPart }
    ensures several { LongsOfPart }
    ensures writes { WritesJoin }
    ensures fits { LongFits }
    ensures fit { LongsFit }
    ensures again { LongsAgain }
    ensures splits { LongsSplit }
    ensures four { FourLongs }
    ensures same { SameNumber }
{}
