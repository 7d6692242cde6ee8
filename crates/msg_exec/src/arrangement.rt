// What the order of an engine's turns comes of, for callers.
ghost use Rattle.std.specs.Prelude.{◌↔◌, IfSome, IsNone};
ghost use Rattle.msg_frames.specs.Prelude.{IsArrangementOf, IsOrderly, State};

use crate::{Arrangement, EngineOf};
use msg_system::SystemOf;
use msg_world::Value;

impl<V: Value, S: SystemOf<Value = V>> EngineOf<S, V> {
    ghost use Rattle.msg_exec.specs.Engines.{EngineStands, IsEngine, IsSpoiled};

    /// What the order of its turns comes of; None if it is spoiled.
    pub fn arrangement(&self) -> Option<Arrangement<'_>>
        ensures arranged { (s : State V.values) → EngineStands S.meaning self.now s
            → IfSome result (IsArrangementOf s) }
        ensures orderly { IsEngine V.values S.meaning self.now → IfSome result IsOrderly }
        ensures spoiled { IsNone result ↔ IsSpoiled self.now }
    {
        match &self.core {
            Some(core) => Some(Arrangement {
                accesses: &core.lender.accesses,
                joins: &core.joins,
                rules: &core.rules,
                types: core.lender.world.types() as u32,
                resources: core.lender.world.resources() as u32,
            }),
            None => None,
        }
    }
}
