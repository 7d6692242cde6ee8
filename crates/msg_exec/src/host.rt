use crate::{Frame, Log, NoMemory};
use msg_world::Value;
use std::alloc::Global;

/// Gives an engine its frames one by one: what a game does round its systems.
///
/// ```
/// /// Posts an order in each frame until a system answers that it has enough.
/// impl Host for Shop {
///     type Value = i64;
///
///     fn next(&mut self, alloc: Global, last: Option<&Log>) -> Result<Option<Frame>, NoMemory> {
///         if last.is_some_and(|log| self.has_enough(log)) {
///             return Ok(None);
///         }
///         let order = vec![in alloc; (self.orders, 1)]?;
///         Ok(Some(Frame::of(order)))
///     }
/// }
/// ```
pub trait Host {
    /// What the messages of its engine's world hold.
    type Value: Value;

    ghost use Rattle.std.specs.Prelude.{IfOk, OnErr, Option, ⊤};
    ghost use Rattle.std.specs.Option.{option_copied};
    ghost use Rattle.msg_frames.specs.{declared.frame.Frame.Frame as FrameView, declared.log.Log.Log as LogView};

    // What is known of a call: the host before it, the log it was told, what it gave, and the host
    // after it. By default that is nothing, and then the clauses of `run_loop` tell of such a host
    // no more than that it gave some frames.
    ghost gives: { Self → Option (LogView Self.Value) → Option (FrameView Self.Value) → Self
        → Type 0 } = { λ old last frame new. ⊤ };

    // What is known of a call that was refused memory: the host before it, the log it was told,
    // and the host after it. ⊥ says that none is.
    ghost refuses: { Self → Option (LogView Self.Value) → Self → Type 0 } = { λ old last new. ⊤ };

    /// The next frame, by the log of the last one; before the first frame there is none. None ends
    /// the loop.
    fn next(
        &mut self,
        alloc: Global,
        last: Option<&Log<Self::Value>>,
    ) -> Result<Option<Frame<Self::Value>>, NoMemory>
        ensures gives { IfOk result (λ frame.
            Self.gives self.old (option_copied last.entry) frame self.new) }
        ensures refuses { OnErr result
            (Self.refuses self.old (option_copied last.entry) self.new) };
}
