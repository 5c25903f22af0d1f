// What is there is what was wanted. It is said once for all types, so that a test's own proof is short.
use std::fmt::{Debug, Display};
use std::process::Abort;

/// A failure tells the row, what is there and what was wanted.
pub fn same<A: Display, T: PartialEq + Debug>(rt: &impl Abort, at: &A, is: &T, want: &T) {
    assert_eq!(rt; is, want, "at {at}");
}
