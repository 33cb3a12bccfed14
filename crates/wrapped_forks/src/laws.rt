ghost use Rattle.wrapped_forks.specs.laws.Wholes.{AppleGivesBack, BinaryGivesBack, RawGivesBack};

/// That the parts of a MacBinary file give its forks back. It does nothing: the clause is its point.
#[tactic(auto, using(crate::proofs::Wholes::binary_back))]
pub fn binary_law()
    ensures { BinaryGivesBack }
{}

/// The same of AppleSingle and AppleDouble.
#[tactic(auto, using(crate::proofs::Wholes::apple_back))]
pub fn apple_law()
    ensures { AppleGivesBack }
{}

/// The same of a raw fork.
#[tactic(auto, using(crate::proofs::Wholes::raw_back))]
pub fn raw_law()
    ensures { RawGivesBack }
{}
