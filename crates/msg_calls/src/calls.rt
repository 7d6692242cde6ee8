ghost use Rattle.std.specs.Prelude.{◌≡◌, true};
ghost use Rattle.msg_calls.specs.Prelude.{cursors_exist};

use crate::call::Call;
use std::marker::Model;

mod answer;
mod read;
mod run;
mod text;

pub use read::{check_calls, read_calls, read_file};
pub use run::run_calls;

/// A buffer's limit, and the calls to be made on it. The cursor of each call is made by the calls
/// before it; cursor 0 is there from the beginning.
#[derive(Debug, Drop)]
pub struct Calls {
    limit: u32,
    calls: Vec<Call>,
}

impl Model for Calls {
    ghost use Rattle.std.specs.Prelude.{◌≡◌, true};
    ghost use Rattle.msg_calls.specs.Cursors.{CallsFile, cursors_exist};

    ghost Value = { CallsFile };

    ghost view = { λ s. record { limit = s.limit; calls = s.calls.items } };

    ghost invariant = { λ s. cursors_exist 1 s.calls.items ≡ true };
}

impl Calls {
    pub(crate) fn new(limit: u32, calls: Vec<Call>) -> Calls
        requires { cursors_exist 1 calls.items ≡ true }
        ensures { result ≡ record { limit = limit; calls = calls.items } }
    {
        Calls { limit, calls }
    }

    /// The greatest number of messages that may ever be written.
    pub fn limit(&self) -> u32
        ensures limit { result ≡ self.now.limit }
    {
        self.limit
    }

    /// The calls in order.
    pub fn calls(&self) -> &[Call]
        ensures same { result.now ≡ self.now.calls }
        ensures exist { cursors_exist 1 result.now ≡ true }
    {
        self.calls.as_slice()
    }
}
