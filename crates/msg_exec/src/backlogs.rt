// What is left for readers, for callers.
ghost use Rattle.std.specs.Prelude.{◌≡◌, ◌<◌, ◌+◌, ◌≤◌, IfSome, IsNone, Some};
ghost use Rattle.msg_buffer.specs.Prelude.{count};
ghost use Rattle.msg_frames.specs.Prelude.{State, backlog_of};

use crate::{Account, Backlog, EngineOf};
use msg_buffer::MessageCursor;
use msg_system::SystemOf;
use msg_world::Value;

impl<V: Value, S: SystemOf<Value = V>> EngineOf<S, V> {
    ghost use Rattle.msg_exec.specs.Engines.{EngineStands, IsSpoiled};

    /// What became of the messages past the place of this account, one of `accounts`: how many were
    /// lost without a word, and how many still wait. None if the engine is spoiled, or has no such
    /// type.
    ///
    /// ```
    /// for account in &engine.accounts()? {
    ///     if let Some(left) = engine.backlog(account) {
    ///         println!(rt; "system {} lost {} more", account.system, left.lost)?;
    ///     }
    /// }
    /// ```
    pub fn backlog(&self, account: &Account) -> Option<Backlog>
        ensures backlog { (s : State V.values) → EngineStands S.meaning self.now s
            → account.now.of_type < s.types → result ≡ Some (backlog_of s account.now) }
        ensures adds_up { (s : State V.values) → EngineStands S.meaning self.now s
            → account.now.of_type < s.types
            → account.now.place ≤ count (s.world.histories account.now.of_type)
            → IfSome result (λ left. account.now.place + left.lost + left.unread
            ≡ count (s.world.histories account.now.of_type)) }
        ensures no_type { (s : State V.values) → EngineStands S.meaning self.now s
            → s.types ≤ account.now.of_type → IsNone result }
        ensures spoiled { IsSpoiled self.now → IsNone result }
    {
        let messages = self.world()?.messages(account.of_type)?;
        let cursor = MessageCursor::new(account.place);
        Some(Backlog {
            lost: cursor.missed(messages),
            unread: cursor.len(messages),
        })
    }
}
