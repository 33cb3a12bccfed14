ghost use Rattle.gdb_packets.specs.laws.Digits.{ReadsBytes, ReadsDigits, ReadsMemory, ReadsNumbers, ReadsRegisters};
ghost use Rattle.gdb_packets.specs.laws.Streams.{DecoderTells, PacketsTell, PiecesJoin, ReadsBack};

/// What follows from the definition of a stream. It does nothing: the clauses are its point.
pub fn stream_laws()
    ensures pieces { PiecesJoin }
    ensures packets { PacketsTell }
    ensures back { ReadsBack }
    ensures decoder { DecoderTells }
{}

/// How reading undoes writing of hexadecimal digits. It does nothing, either.
pub fn hexadecimal_laws()
    ensures digits { ReadsDigits }
    ensures bytes { ReadsBytes }
    ensures memory { ReadsMemory }
    ensures registers { ReadsRegisters }
    ensures numbers { ReadsNumbers }
{}
