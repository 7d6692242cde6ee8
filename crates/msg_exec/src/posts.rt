// Writes the host's posts into the world.
ghost use Rattle.std.specs.Prelude.{◌≡◌, ◌<◌, ◌≤◌, ◌∷◌, [], All, IfOk, IsSome, OnErr, OnOk, length, vec_capacity};
ghost use Rattle.msg_buffer.specs.Prelude.{write};
ghost use Rattle.msg_world.specs.declared.record.TheConstants.{HOST};
ghost use Rattle.msg_world.specs.{declared.part.Part.TheVariants.OfType, Prelude.IsWhole, Prelude.PartsStand, Prelude.SameShape, Prelude.WorldState, Prelude.by, Prelude.slot, Prelude.with_history};
ghost use Rattle.msg_system.specs.Prelude.{numbers_for, write_reply};
ghost use Rattle.msg_frames.specs.Prelude.{after_posts, post_replies};
ghost use Rattle.msg_exec.specs.inner.Posts.{HasRoom, SomeFindsRoom};

use crate::NoMemory;
use msg_buffer::{WriteRefusal, Written};
use msg_system::Reply;
use msg_world::{TypeNo, Value, World};

/// Writes one post, and says what it was answered.
fn post<V: Value>(world: &mut World<V>, t: TypeNo, value: V) -> Result<Reply<V>, NoMemory>
    requires home { IsSome (slot (OfType t) world.old) }
    ensures state { OnOk result ((w : WorldState V.values) → PartsStand world.old w
        → PartsStand world.new (with_history w t (write (by HOST value ∷ []) (w.histories t)))) }
    ensures reply { IfOk result (λ reply. (w : WorldState V.values) → PartsStand world.old w
        → reply ≡ write_reply (numbers_for (w.histories t) 1)) }
    ensures no_memory { OnErr result ((w : WorldState V.values) → PartsStand world.old w
        → HasRoom (w.histories t)) }
    ensures shape { SameShape world.old world.new }
{
    match world.post(t, value) {
        Ok(id) => Ok(Reply::Wrote(Written { first: id.0, n: 1 })),
        Err(WriteRefusal::NumbersSpent(_)) => Ok(Reply::Spent),
        Err(WriteRefusal::NoMemory(_)) => Err(NoMemory),
    }
}

/// Writes the posts in order, and says what they were answered, if there is room for the
/// answers.
pub(crate) fn post_all<V: Value>(
    world: &mut World<V>,
    posts: &[(TypeNo, V)],
    replies: &mut Vec<Reply<V>>,
) -> Result<(), NoMemory>
    requires whole { IsWhole world.old }
    requires types { All (λ p. p.0 < length world.old.types) posts.now }
    requires none_yet { replies.old.items ≡ [] }
    requires room { length posts.now ≤ vec_capacity replies.old }
    ensures state { OnOk result ((w : WorldState V.values) → PartsStand world.old w
        → PartsStand world.new (after_posts posts.now w)) }
    ensures replies { OnOk result ((w : WorldState V.values) → PartsStand world.old w
        → replies.new.items ≡ post_replies posts.now w) }
    ensures shape { OnOk result (SameShape world.old world.new) }
    ensures no_memory { OnErr result ((w : WorldState V.values) → PartsStand world.old w
        → SomeFindsRoom posts.now w) }
{
    for (t, value) in posts {
        let reply = post(world, *t, *value)?;
        let Ok(()) = replies.push(reply) else {
            unreachable!()
        };
    }
    Ok(())
}
