//! What the tests of each crate share.
ghost use Rattle.std.specs.Prelude.{◌≡◌, true};

use std::fmt::Debug;
use std::process::Abort;

/// Asserts that what a call gave is what is wanted. The proof of an assertion stands here once.
pub fn same<T: PartialEq + Debug + Copy>(rt: &impl Abort, given: T, wanted: T) {
    assert_eq!(rt; given, wanted);
}

/// Asserts that something holds, which the caller knows then.
pub fn holds(rt: &impl Abort, it: bool)
    ensures { it ≡ true }
{
    assert!(rt; it);
}
