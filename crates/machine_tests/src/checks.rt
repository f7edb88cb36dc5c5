//! What tests check. A test that calls these takes the prover less time than one that asserts itself.

use std::fmt::Debug;
use std::process::Abort;

/// Checks that what was found is what is wanted.
pub(crate) fn compare<T: Debug + PartialEq>(rt: &impl Abort, found: &T, want: &T, what: &str) {
    assert_eq!(rt; *found, *want, "{what}");
}

/// The same of two texts.
pub(crate) fn compare_texts(rt: &impl Abort, found: &str, want: &str, what: &str) {
    assert_eq!(rt; found, want, "{what}");
}

/// Checks that something is so.
pub(crate) fn check(rt: &impl Abort, is_so: bool, what: &str) {
    assert!(rt; is_so, "{what}");
}
