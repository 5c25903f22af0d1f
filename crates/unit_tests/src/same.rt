// What is there is what was wanted. It is said once for all types, so that a test's own proof is short.
use std::alloc::Global;
use std::fmt::{Debug, Display};
use std::process::Abort;

/// A failure tells the row, what is there and what was wanted.
pub fn same<A: Display, T: PartialEq + Debug>(rt: &impl Abort, at: &A, is: &T, want: &T) {
    assert_eq!(rt; is, want, "at {at}");
}

/// A value says this where it is printed.
pub fn shows<T: Display>(rt: &impl Abort, alloc: Global, value: &T, want: &str) {
    let text = format!(in alloc; "{value}").expect(rt, "there is memory");
    same(rt, &"a text", &text.as_str(), &want);
}
