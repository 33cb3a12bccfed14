// Comparisons of all values, and facts that later code relies on.
ghost use Rattle.std.specs.Prelude.{◌≡◌, true};

use std::fmt::{Debug, Display};
use std::process::Abort;

/// This holds. Code behind the call may rely on it.
pub fn must(rt: &impl Abort, fact: bool)
    ensures { fact ≡ true }
{
    assert!(rt; fact);
}

/// What was found is what was wanted; `what` names it where it is not.
pub fn equal<W: Display + Copy, T: PartialEq + Debug + Copy>(
    rt: &impl Abort,
    what: W,
    found: T,
    wanted: T,
) {
    assert!(rt;
        found == wanted,
        "{what}: found {found:?}, wanted {wanted:?}"
    );
}
