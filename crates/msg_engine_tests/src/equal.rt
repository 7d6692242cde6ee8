//! How tests compare. Each crate of tests has this file: no library may have a function that can
//! end the process.
use std::fmt::{Debug, Display};
use std::panic::Expect;
use std::process::Abort;

/// Both are equal.
pub fn expect_eq<T: PartialEq + Debug + Copy>(rt: &impl Abort, found: T, want: T) {
    assert_eq!(rt; found, want);
}

/// It says this of itself.
pub fn expect_text(rt: &(impl Abort + AllocGlobal), told: &impl Display, want: &str) {
    let text = format!(in rt.alloc(); "{told}").expect(rt, "a text");
    expect_eq(rt, text.as_str(), want);
}
