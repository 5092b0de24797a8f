//! What the tests of each crate share.

use std::fmt::Debug;
use std::process::Abort;

/// Asserts that what a call gave is what is wanted. The proof of an assertion stands here once.
pub fn same<T: PartialEq + Debug + Copy>(rt: &impl Abort, given: T, wanted: T) {
    assert_eq!(rt; given, wanted);
}

/// Asserts that what a call gave is what is wanted, and names the sentence, the row and the place
/// where it is not.
pub fn same_at<T: PartialEq + Debug + Copy>(
    rt: &impl Abort,
    sentence: &str,
    row: &str,
    at: usize,
    given: T,
    wanted: T,
) {
    assert_eq!(rt; given, wanted, "{sentence} {row} at {at}");
}
