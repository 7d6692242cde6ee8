// What one read of a cursor comes to.
ghost use Rattle.std.specs.Prelude.{◌≡◌, ◌+◌, IfOk};
ghost use Rattle.msg_buffer.specs.Prelude.{History, StandsFor};
ghost use Rattle.damage_and_score.specs.Prelude.{Damage as Hit, HasSeen};

use crate::damage::{Damage, Hero};
use anyhow::Context;
use msg_buffer::{MessageCursor, Messages};
use std::fmt;

/// What one read of a cursor comes to.
#[derive(Clone, Copy, Debug, PartialEq, Eq)]
pub struct Sight {
    /// How many hits were dropped unread.
    pub missed: u64,
    /// How many hits were read.
    pub hits: u64,
    /// Their points, by hero.
    pub archer: u64,
    pub mage: u64,
}

impl fmt::Display for Sight {
    fn fmt<W: fmt::Write>(&self, f: &mut fmt::Formatter<W>) -> fmt::Result {
        write!(
            f,
            "hits {}: archer {}, mage {}; missed {}",
            self.hits, self.archer, self.mage, self.missed
        )
    }
}

/// A total with the points of one more hit.
fn plus(total: u64, points: u32) -> anyhow::Result<u64>
    ensures sum { IfOk result (λ sum. sum ≡ total + points) }
{
    total
        .checked_add(u64::from(points))
        .context("too many points")
}

/// Reads all that is unread and adds up its points.
pub fn see(cursor: &mut MessageCursor, hits: &Messages<Damage>) -> anyhow::Result<Sight>
    ensures seen { IfOk result (λ sight. (h : History Hit) → StandsFor hits.now h
        → HasSeen h cursor.old sight cursor.new) }
{
    let (missed, unread) = (cursor.missed(hits), cursor.len(hits));
    let (mut archer, mut mage) = (0, 0);
    for (_, hit) in cursor.read(hits) {
        match hit.by {
            Hero::Archer => archer = plus(archer, hit.points)?,
            Hero::Mage => mage = plus(mage, hit.points)?,
        }
    }
    Ok(Sight {
        missed,
        hits: unread,
        archer,
        mage,
    })
}
