// Who gives the frames.
use msg_exec::{Frame, Host, Log, NoMemory};
use msg_world::TypeNo;
use std::alloc::Global;

/// Gives frames that all post the same, but for the first, and counts the turns that it is told of.
#[derive(Clone, Copy, Debug)]
pub struct Poster {
    /// How many frames it still gives.
    pub left: u64,
    /// How many messages it posts in the next frame, and in each later one.
    pub posts: u32,
    pub later: u32,
    pub to: TypeNo,
    pub turns: u64,
}

impl Host for Poster {
    type Value = i64;

    ghost use Rattle.std.specs.Prelude.{◌≡◌, ◌↔◌, IsNone};

    // It ends the loop if no frame is left.
    ghost gives = { λ old last frame new. IsNone frame ↔ (old.left ≡ 0) };

    fn next(&mut self, alloc: Global, last: Option<&Log>) -> Result<Option<Frame>, NoMemory> {
        if let Some(log) = last {
            self.turns = self.turns.saturating_add(log.turns.as_slice().len() as u64);
        }
        if self.left == 0 {
            return Ok(None);
        }
        self.left -= 1;
        let mut posts = Vec::with_capacity(alloc, self.posts as usize)?;
        for _ in 0..self.posts {
            posts.push((self.to, 1))?;
        }
        self.posts = self.later;
        Ok(Some(Frame::of(posts)))
    }
}
