//! How tests compare, and take what has to be there. Each crate of tests has such a file: no
//! library may have a function that can end the process.
use std::fmt::{Debug, Display};
use std::panic::Expect;
use std::process::Abort;

/// Both are equal.
pub fn expect_eq<T: PartialEq + Debug + Copy>(rt: &impl Abort, found: T, want: T) {
    assert!(rt; found == want, "{found:?} is not {want:?}");
}

/// What may not be there, and has to be. A test doesn't say what that is: each such text is as
/// much to prove as three calls.
pub trait Have: Expect {
    fn have<R: Abort>(self, rt: &R) -> Self::Value
        ensures { Self.expect_gives self result };
}

impl<M: Expect> Have for M {
    fn have<R: Abort>(self, rt: &R) -> M::Value {
        self.expect(rt, "it is there")
    }
}

/// It says this of itself.
pub fn expect_text(rt: &(impl Abort + AllocGlobal), told: &impl Display, want: &str) {
    let text = format!(in rt.alloc(); "{told}").have(rt);
    expect_eq(rt, text.as_str(), want);
    drop(text);
}
