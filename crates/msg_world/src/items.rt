ghost use Rattle.std.specs.Prelude.{◌≡◌, ◌<◌, IfOk, OnErr, length};

use crate::NoMemory;
use std::alloc::Global;
use std::marker::Model;

/// Items in order. Contracts see their list alone, and nothing of the memory that is kept for it.
#[derive(Debug, Drop)]
pub struct Items<T> {
    items: Vec<T>,
}

impl<T> Model for Items<T> {
    ghost use Rattle.std.specs.Prelude.{List};

    ghost Value = { List T };

    ghost view = { λ i. i.items.items };
}

impl<T> Items<T> {
    /// The items of a list. It takes no memory.
    pub fn from_vec(items: Vec<T>) -> Items<T>
        ensures items { result ≡ items.items }
    {
        Items { items }
    }

    /// Gives the list of the items. It takes no memory.
    pub fn into_vec(self) -> Vec<T>
        ensures items { result.items ≡ self }
    {
        let Items { items } = self;
        items
    }

    /// All of them, in order.
    pub fn as_slice(&self) -> &[T]
        ensures items { result.now ≡ self.now }
    {
        self.items.as_slice()
    }
}

// Equal lists, item by item.
impl<T: PartialEq> PartialEq for Items<T> {
    ghost use Rattle.std.specs.Cmp.Lexicographic.{lists_per, pointwise};

    ghost eq = { pointwise T.eq };

    ghost laws = { lists_per T.laws };

    fn eq(&self, other: &Items<T>) -> bool {
        self.as_slice() == other.as_slice()
    }
}

impl<T: Eq> Eq for Items<T> {
    ghost use Rattle.std.specs.Cmp.Lexicographic.{lists_equiv};

    ghost laws = { lists_equiv T.Eq.laws };
}

impl<T: Copy> Items<T> {
    /// A copy of the values. If there are none it takes no memory.
    pub fn copy(&self, alloc: Global) -> Result<Items<T>, NoMemory>
        ensures equal { IfOk result (λ values. values ≡ self.now) }
        ensures refused { OnErr result (0 < length self.now) }
    {
        let mut items = Vec::with_capacity(alloc, self.items.len())?;
        items.extend_from_slice(self.items.as_slice())?;
        Ok(Items { items })
    }
}
