// What the tests compare by, and make vectors by.
use std::alloc::Global;
use std::fmt::Debug;
use std::process::Abort;

/// Fails the test, and shows both, unless it got what was wanted.
pub fn same<T: PartialEq + Debug + Copy>(rt: &impl Abort, got: T, wanted: T) {
    assert_eq!(rt; got, wanted);
}

/// A vector of these items.
pub fn vector<T: Copy>(rt: &impl Abort, alloc: Global, items: &[T]) -> Vec<T> {
    items.to_vec(alloc).expect(rt, "no memory")
}
