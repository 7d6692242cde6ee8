//! A fight, which shows systems that choose op by op, put together by a builder and run on four
//! workers in a loop that an audience ends.
#![tactic(auto)]

ghost use Rattle.std.specs.Prelude.{OnOk};
ghost use Rattle.msg_exec.specs.Prelude.{IsEngine};
ghost use Rattle.msg_exec.specs.Hosts.{HasRunLoop, LoopsAgree};
ghost use Rattle.msg_world.specs.Prelude.{i64_values};

mod audience;
mod role;

use audience::Audience;
use msg_exec::engine_laws::loops_agree;
use msg_game::{Condition, EngineOf, Game, Host, ResNo, Rule, SystemOf, Workers, resources, types};
use msg_system::BehaviorSystem;
use role::{Fighter, Role};
use std::thread::Threads;

/// The health that a fighter begins with.
const HEALTH: i64 = 3;

/// Fighters in a ring, who take turns until two have fallen, and a referee, who is added after them
/// and whom a rule puts before each of them. It gives the resource that counts the fallen.
fn add_all(ring: &mut Game<BehaviorSystem<Role>, i64>) -> anyhow::Result<ResNo> {
    let alloc = ring.alloc();
    types! { ring; to_ann, to_ben, to_cis, falls }
    resources! { ring; fallen: 0 }
    let fighters = [
        ("ann", to_ann, to_ben, 1),
        ("ben", to_ben, to_cis, 1),
        ("cis", to_cis, to_ann, 3),
    ];
    for (name, blows, rival, join) in fighters {
        let fighter = Role::Fighter(Fighter {
            blows,
            rival,
            falls,
            health: HEALTH,
        });
        let until_two_fell = vec![in alloc; Condition::resource_equals(fallen, 2).not()]?;
        ring.add_system(name, fighter.system(alloc), until_two_fell, join)?;
    }
    let referee = Role::Referee(falls, fallen).system(alloc);
    let referee = ring.add_system("referee", referee, Vec::new(alloc), 1)?;
    for fighter in 0..3 {
        ring.add_rule(Rule::before(referee, fighter))?;
    }
    Ok(fallen)
}

/// Lets them fight until the audience has seen enough, for so many frames at most.
fn fight<R: Threads + Sync>(
    rt: &R,
    engine: &mut EngineOf<BehaviorSystem<Role>>,
    audience: &mut Audience,
    most: u64,
    workers: Workers,
) -> anyhow::Result<()>
    requires engine { IsEngine i64_values ⟦<BehaviorSystem<Role> as SystemOf>⟧.meaning engine.old }

    // Whatever the workers: the audience was told the logs of one thread.
    ensures one_thread { OnOk result
        (HasRunLoop i64_values ⟦<BehaviorSystem<Role> as SystemOf>⟧.meaning
        ⟦<Audience as Host>⟧.gives most audience.old engine.old audience.new engine.new) }

    // And two fights that begin alike are alike.
    ensures alike { LoopsAgree i64_values ⟦<BehaviorSystem<Role> as SystemOf>⟧.meaning
        ⟦<Audience as Host>⟧.gives }
{
    loops_agree::<i64, BehaviorSystem<Role>, Audience>();
    engine.run_loop(rt, audience, most, workers)?;
    Ok(())
}

/// Prints how long the fight took, what became of each reader's messages, and how many fell.
fn main(rt: HostRuntime) -> anyhow::Result<()> {
    let mut ring = Game::new(rt.alloc());
    let fallen = add_all(&mut ring)?;
    let (mut engine, names) = ring.build()?;
    let mut audience = Audience { falls: 2 };
    fight(
        &rt,
        &mut engine,
        &mut audience,
        100,
        Workers::new(4).unwrap(),
    )?;
    println!(rt; "the fight took {} frames", engine.frames_run())?;
    names.tell(&rt, &engine)?;
    if let Some(count) = engine.world().and_then(|world| world.resource(fallen)) {
        println!(rt; "{count} of 3 fighters fell")?;
    }
    Ok(())
}
