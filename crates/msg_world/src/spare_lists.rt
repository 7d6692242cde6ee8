// Memory of lists that serves again.
ghost use Rattle.std.specs.Prelude.{◌≡◌, []};

use crate::record::Record;
use std::alloc::Global;
use std::marker::Model;

/// At most so many lists are kept.
const MOST_LISTS: usize = 1024;

/// A list with room for more messages isn't kept: so a log that nobody gives back holds little more
/// than its messages.
const MOST_ROOM: usize = 64;

/// Lists with their memory, which served reads and serve others. Contracts see nothing of it.
#[derive(Drop)]
pub(crate) struct SpareLists<V> {
    lists: Vec<Vec<Record<V>>>,
}

impl<V> Model for SpareLists<V> {
    ghost use Rattle.std.specs.Prelude.{⊤};

    ghost Value = { ⊤ };

    ghost view = { λ _. tt };
}

impl<V: Drop> SpareLists<V> {
    pub(crate) fn new(alloc: Global) -> SpareLists<V> {
        SpareLists {
            lists: Vec::new(alloc),
        }
    }

    /// An empty list, with memory if there is a list that was kept.
    pub(crate) fn take(&mut self, alloc: Global) -> Vec<Record<V>>
        ensures empty { result.items ≡ [] }
    {
        match self.lists.pop() {
            Some(mut list) => {
                list.clear();
                list
            }
            None => Vec::new(alloc),
        }
    }

    /// Keeps the memory of a list, if it has some, and not too much.
    pub(crate) fn keep(&mut self, list: Vec<Record<V>>) {
        let room = list.capacity();
        if room > 0 && room <= MOST_ROOM && self.lists.len() < MOST_LISTS {
            let _kept = self.lists.push(list);
        }
    }
}
