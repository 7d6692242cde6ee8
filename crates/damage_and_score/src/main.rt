//! A game loop over one buffer, which shows `Messages` by itself: two heroes write the damage that
//! they deal, and three readers with a cursor each read it at a pace of their own.
#![tactic(auto)]

mod damage;
mod sight;

use damage::{Damage, Hero};
use msg_buffer::Messages;
use sight::see;
use std::alloc::Global;

/// The archer hits once in each frame.
fn shoot(frame: u32, hits: &mut Messages<Damage>) -> anyhow::Result<()> {
    hits.write(Damage {
        by: Hero::Archer,
        points: frame,
    })?;
    Ok(())
}

/// The mage hits twice in each second frame.
fn cast(alloc: Global, frame: u32, hits: &mut Messages<Damage>) -> anyhow::Result<()> {
    let spark = Damage {
        by: Hero::Mage,
        points: 10,
    };
    if frame % 2 == 0 {
        hits.write_batch(vec![in alloc; spark, spark]?)?;
    }
    Ok(())
}

/// Six frames. The score reads in each of them; the chronicle reads in each third one, and misses
/// what was dropped meanwhile; the screen clears once and reads nothing.
fn main(rt: HostRuntime) -> anyhow::Result<()> {
    let alloc = rt.alloc();
    // At most 100 hits can ever be written.
    let mut hits = Messages::new(alloc, 100);
    let mut score = hits.get_cursor();
    let mut chronicle = hits.get_cursor();
    let mut screen = hits.get_cursor();
    for frame in 1..=6 {
        hits.update();
        shoot(frame, &mut hits)?;
        cast(alloc, frame, &mut hits)?;
        let seen = see(&mut score, &hits)?;
        println!(rt; "frame {frame}, score: {seen}")?;
        if frame % 3 == 0 {
            let seen = see(&mut chronicle, &hits)?;
            println!(rt; "frame {frame}, chronicle: {seen}")?;
        }
        if frame == 4 {
            let (missed, unread) = (screen.missed(&hits), screen.len(&hits));
            screen.clear(&hits);
            println!(rt; "frame {frame}, screen: clears {unread}; missed {missed}")?;
        }
    }
    println!(rt;
        "unread: {}, {}, {}",
        score.len(&hits),
        chronicle.len(&hits),
        screen.len(&hits)
    )?;
    Ok(())
}
