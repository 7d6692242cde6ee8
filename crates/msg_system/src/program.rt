ghost use Rattle.std.specs.Prelude.{◌≡◌, ◌<◌, ◌↔◌, IfOk, OnErr, length};

use crate::{Access, Items, NoMemory, Op, Start};
use msg_world::Value;
use std::alloc::Global;

/// Ops in order, and where their cursors start.
#[derive(Debug, PartialEq, Eq, Drop)]
pub struct Program<V = i64> {
    pub ops: Items<Op<V>>,
    pub start: Start,
}

impl<V: Value> Program<V> {
    ghost use Rattle.msg_world.specs.Prelude.{IsClash};
    ghost use Rattle.msg_system.specs.Needs.{HasClash, IsAccessOf, program_needs};

    /// What its ops read and write.
    pub fn access(&self) -> Access
        ensures needs { IsAccessOf (program_needs self.now.ops) result }
        ensures clash { IsClash result ↔ HasClash (program_needs self.now.ops) }
    {
        let mut access = Access::none();
        for op in self.ops.as_slice() {
            access = op.added_to(access);
        }
        // A resource that is written too isn't listed as read, but a type is: that is the clash.
        Access {
            read_res: access.read_res & !access.write_res,
            ..access
        }
    }

    /// A copy of the program. If it has no ops it takes no memory.
    #[tactic(auto, using(std::proofs::lemmas::List::take_all))]
    pub fn copy(&self, alloc: Global) -> Result<Program<V>, NoMemory>
        ensures equal { IfOk result (λ p. p ≡ self.now) }
        ensures refused { OnErr result (0 < length self.now.ops) }
    {
        let mut ops = Vec::new(alloc);
        for op in self.ops.as_slice() {
            ops.push(op.copy(alloc)?)?;
        }
        Ok(Program {
            ops: Items::from_vec(ops),
            start: self.start,
        })
    }
}
