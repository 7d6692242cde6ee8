ghost use Rattle.std.specs.Prelude.{◌≡◌, []};

use crate::Items;
use msg_world::TypeNo;
use std::alloc::Global;

/// What the host posts as a frame begins: values, each to a type.
#[derive(Debug, PartialEq, Eq, Drop)]
pub struct Frame<V = i64> {
    pub posts: Items<(TypeNo, V)>,
}

impl<V> Frame<V> {
    /// A frame that begins with these posts, in their order.
    ///
    /// ```
    /// let frame = Frame::of(vec![in alloc; (arrivals, 3), (arrivals, 4)]?);
    /// ```
    pub fn of(posts: Vec<(TypeNo, V)>) -> Frame<V>
        ensures posts { result.posts ≡ posts.items }
    {
        Frame {
            posts: Items::from_vec(posts),
        }
    }

    /// A frame before which the host posts nothing.
    pub fn quiet(alloc: Global) -> Frame<V>
        ensures quiet { result.posts ≡ [] }
    {
        Frame::of(Vec::new(alloc))
    }
}
