ghost use Rattle.std.specs.Prelude.{◌≡◌};
ghost use Rattle.switch_frame.specs.laws.FrameLaws.{BelowInnermost, FirstIsHeld, FramesAbove, LengthBytes, LengthZeros, MeetsNone, PlaceByLength, RoomByLength, RoomIsPlace, StoredApart, TopIsZero, ZerosBeside};
ghost use Rattle.switch_frame.specs.laws.GateLaws.{LengthOfBlank, LongsArePage, PageByBytes, PageHasLongs};
ghost use Rattle.switch_frame.specs.laws.RangeLaws.{FitsIsRange, MarkAt, MarksKept, MarksSame, RangeMoves, TopTells};
ghost use Rattle.switch_frame.specs.laws.Laws.{BeginsEmpty, FreeKeepsChain, GuardIsFrames, KeepsLength, LowIsMemory, PlacesAreFree, PlacesAreGiven, ReadsBack, ReadsOuter, RefusalsAreRanges, SeenIsMemory, StoresBeside, TopIsLong, ViewIsMemory, WholeChainsPass};

use crate::gate::{A5_PLACE, ENTRY_PLACE, MAIN_VECTOR_PLACE, RAM_SIZE_PLACE};
use crate::program::PROGRAM_START;

/// What follows from the definitions of a chain. It does nothing: the clauses are its point.
pub fn chain_laws()
    ensures reads_back { ReadsBack }
    ensures reads_outer { ReadsOuter }
    ensures begins { BeginsEmpty }
    ensures views { ViewIsMemory }
    ensures length { KeepsLength }
    ensures stores { StoresBeside }
    ensures guard { GuardIsFrames }
    ensures places { PlacesAreGiven }
    ensures refusals { RefusalsAreRanges }
    ensures free_places { PlacesAreFree }
    ensures seen { SeenIsMemory }
    ensures keeps { FreeKeepsChain }
    ensures low { LowIsMemory }
    ensures top { TopIsLong }
    ensures whole { WholeChainsPass }
{}

/// What follows for single frames and their ranges. It does nothing, either.
pub fn frame_laws()
    ensures none { TopIsZero }
    ensures first { FirstIsHeld }
    ensures meets { MeetsNone }
    ensures stored { StoredApart }
    ensures below { BelowInnermost }
    ensures above { FramesAbove }
    ensures room { RoomIsPlace }
    ensures place_by_length { PlaceByLength }
    ensures room_by_length { RoomByLength }
    ensures zeros { ZerosBeside }
    ensures length_zeros { LengthZeros }
    ensures length_bytes { LengthBytes }
{}

/// What follows for a frame's range and its marks. It does nothing, either.
pub fn range_laws()
    ensures top { TopTells }
    ensures range { FitsIsRange }
    ensures moves { RangeMoves }
    ensures mark { MarkAt }
    ensures marks_kept { MarksKept }
    ensures marks_same { MarksSame }
{}

/// What follows for the gate page, and where its longs and a program stand. It does nothing, either.
pub fn gate_laws()
    ensures longs { PageHasLongs }
    ensures page { LongsArePage }
    ensures bytes { PageByBytes }
    ensures blank { LengthOfBlank }
    ensures entry { ENTRY_PLACE ≡ 0x1020 }
    ensures main_vector { MAIN_VECTOR_PLACE ≡ 0x1024 }
    ensures a5 { A5_PLACE ≡ 0x1028 }
    ensures ram_size { RAM_SIZE_PLACE ≡ 0x102C }
    ensures start { PROGRAM_START ≡ 0x10000 }
{}
