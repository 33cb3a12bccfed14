// The flags of a routine record.
ghost use Rattle.std.specs.Prelude.{◌≡◌, true, ⊤, [], ◌∷◌, codes};
ghost use Rattle.routine_desc.specs.Layout.{has_flag};
ghost use Rattle.routine_desc.specs.LayoutClauses.{is_flag};

use bitflags::{Flag, Flags, bitflag_items};

/// The routine flags of a record (Inside Macintosh: PowerPC System Software, chapter 2).
#[derive(Clone, Copy, PartialEq, Eq, Debug)]
pub struct RoutineFlags(u32);

bitflag_items! {
    impl RoutineFlags: u32 {
        /// The procDescriptor is counted from the descriptor.
        const RELATIVE = 1;
        /// The routine has to be prepared first, which this host does not do.
        const NEEDS_PREPARING = 2;
        /// PowerPC code is taken where there is some.
        const USE_NATIVE = 4;
        /// The callee does not get the selector.
        const DONT_PASS_SELECTOR = 8;
        /// The record that is taken where no selector is equal.
        const DEFAULT = 0x10;
        /// The record holds an index, which this host does not do.
        const INDEX = 0x20;
    }
}

impl RoutineFlags {
    /// Whether this one flag is among the flags of a record.
    pub fn is_in(self, flags: u32) -> bool
        requires { is_flag self.0 ≡ true }
        ensures { result ≡ has_flag flags self.0 }
    {
        RoutineFlags::from_bits_retain(flags).contains(self)
    }
}

impl Flags for RoutineFlags {
    type Bits = u32;

    ghost exact = { ⊤ };

    ghost table = { (codes "RELATIVE", 1) ∷ (codes "NEEDS_PREPARING", 2) ∷ (codes "USE_NATIVE", 4)
        ∷ (codes "DONT_PASS_SELECTOR", 8) ∷ (codes "DEFAULT", 16) ∷ (codes "INDEX", 32) ∷ [] };

    ghost set_of = { λ f. f.0 };

    fn flags<'a>() -> &'a [Flag<RoutineFlags>] {
        RoutineFlags::FLAGS
    }

    fn bits(&self) -> u32 {
        self.0
    }

    fn from_bits_retain(bits: u32) -> RoutineFlags {
        RoutineFlags(bits)
    }
}
