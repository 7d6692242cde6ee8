// Memory kept from one frame for the next. No reply depends on it.
ghost use Rattle.std.specs.Prelude.{◌≡◌, [], IfOk};
ghost use Rattle.msg_exec.specs.Jobs.{outcome_if};

use crate::job::JobContents;
use crate::size::work_estimate;
use crate::{Items, Log, NoMemory, Outcome, Turn};
use msg_system::Reply;
use msg_workers::FrameStatistics;
use msg_world::{Access, MAX_SYSTEMS, Taken, Value, World};
use std::alloc::Global;
use std::marker::Model;
use std::mem::replace;

/// At most so many of a kind are kept: one for each system that an engine may have.
const MAX_SPARES: usize = MAX_SYSTEMS;

/// What serves frames to come: empty lists with their memory, for their logs; boxes of what goes
/// with systems to their turns; and what batches have shown of workers, which stays if the plan
/// changes. Contracts see nothing of it.
#[derive(Drop)]
pub(crate) struct Spares<V = i64> {
    turns: Vec<Turn<V>>,
    replies: Vec<Vec<Reply<V>>>,
    contents: Vec<Box<JobContents<V>>>,
    pub(crate) statistics: FrameStatistics,
}

impl<V> Model for Spares<V> {
    ghost use Rattle.std.specs.Prelude.{⊤};

    ghost Value = { ⊤ };

    ghost view = { λ _. tt };
}

/// Gives a world the list of the messages that a reply gave, if it gave some.
fn keep_list_of<V: Value>(reply: Reply<V>, world: &mut World<V>)
    ensures world { world.new ≡ world.old }
{
    match reply {
        Reply::Read(took) => world.keep_list(took.items.into_vec()),
        Reply::Forwarded { took, .. } => world.keep_list(took.items.into_vec()),
        Reply::Summed { took, .. } => world.keep_list(took.items.into_vec()),
        Reply::Drained { items, .. } => world.keep_list(items.into_vec()),
        _ => {}
    }
}

impl<V: Value> Spares<V> {
    pub(crate) fn new(alloc: Global) -> Spares<V> {
        Spares {
            turns: Vec::new(alloc),
            replies: Vec::new(alloc),
            contents: Vec::new(alloc),
            statistics: FrameStatistics::new(),
        }
    }

    /// An empty list with room for so many turns.
    pub(crate) fn turns(&mut self, alloc: Global, room: usize) -> Result<Vec<Turn<V>>, NoMemory>
        ensures empty { IfOk result (λ turns. turns.items ≡ []) }
    {
        let mut turns = replace(&mut self.turns, Vec::new(alloc));
        turns.clear();
        turns.reserve(room)?;
        Ok(turns)
    }

    /// An empty list of replies.
    pub(crate) fn replies(&mut self, alloc: Global) -> Vec<Reply<V>>
        ensures empty { result.items ≡ [] }
    {
        match self.replies.pop() {
            Some(replies) if replies.is_empty() => replies,
            _ => Vec::new(alloc),
        }
    }

    /// What came of a turn in place: whether the system ran, and its replies. If it didn't run,
    /// their list is kept.
    pub(crate) fn outcome_if(&mut self, ran: bool, replies: Vec<Reply<V>>) -> Outcome<V>
        ensures outcome { result ≡ outcome_if ran replies.items }
    {
        if ran {
            Outcome::Ran(Items::from_vec(replies))
        } else {
            self.keep_list(replies);
            Outcome::Skipped
        }
    }

    /// What goes with a system to its turn, with an empty list of replies: the one that came home
    /// with it, if its last system didn't run.
    pub(crate) fn contents(&mut self, alloc: Global) -> Result<Box<JobContents<V>>, NoMemory>
        ensures empty { IfOk result (λ contents. contents.value.replies.items ≡ []) }
    {
        if let Some(mut contents) = self.contents.pop() {
            if contents.replies.capacity() == 0 || !contents.replies.is_empty() {
                contents.replies = self.replies(alloc);
            }
            return Ok(contents);
        }
        let contents = JobContents {
            number: 0,
            access: Access::none(),
            taken: Taken::none(),
            replies: self.replies(alloc),
            outcome: Outcome::Skipped,
        };
        Ok(Box::new(alloc, contents)?)
    }

    /// The batch has run whose turns begin with `first`: the statistics learn of it, and the batch
    /// in the next place is next.
    pub(crate) fn end_batch(&mut self, turns: &[Turn<V>], first: usize) {
        if self.statistics.asks_size() {
            self.statistics.learn(work_estimate(turns, first));
        }
        self.statistics.next_place();
    }

    /// Keeps what went with a system, if there is room for it.
    pub(crate) fn keep_contents(&mut self, contents: Box<JobContents<V>>) {
        if self.contents.len() < MAX_SPARES {
            let _kept = self.contents.push(contents);
        }
    }

    /// Keeps a log's list of turns, in place of the one that was kept, and the lists of their
    /// replies, if there is room for them. The lists of what they read go to the world.
    pub(crate) fn keep(&mut self, log: Log<V>, world: &mut World<V>)
        ensures world { world.new ≡ world.old }
    {
        let mut turns = log.turns.into_vec();
        while let Some(turn) = turns.pop() {
            if let Outcome::Ran(replies) = turn.outcome {
                self.keep_replies(replies.into_vec(), world);
            }
        }
        self.turns = turns;
    }

    fn keep_replies(&mut self, replies: Vec<Reply<V>>, world: &mut World<V>)
        ensures world { world.new ≡ world.old }
    {
        let mut replies = replies;
        while let Some(reply) = replies.pop() {
            keep_list_of(reply, world);
        }
        self.keep_list(replies);
    }

    /// Keeps a list of replies, if it has memory and there is room for it.
    fn keep_list(&mut self, replies: Vec<Reply<V>>) {
        if replies.capacity() > 0 && self.replies.len() < MAX_SPARES {
            let _kept = self.replies.push(replies);
        }
    }
}
