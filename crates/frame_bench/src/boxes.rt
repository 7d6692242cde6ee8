// Systems of two kinds in one engine, each in a box.
ghost use Rattle.std.specs.Prelude.{◌≡◌, ◌+◌, [], ℤ, All, IfOk, OnOk, length};
ghost use Rattle.msg_exec.specs.Prelude.{EachIs, IsEngine};
ghost use Rattle.msg_frames.specs.Prelude.{IsNew, default_place};
ghost use Rattle.msg_system.specs.Prelude.{FitsWorld, with_conditions};
ghost use Rattle.msg_world.specs.Prelude.{i64_values};

use crate::poster::Poster;
use crate::{SYSTEMS, reading, run_frames, script, world};
use anyhow::bail;
use msg_exec::{Engine, EngineOf, Items, NoMemory, Place, Workers};
use msg_system::{Op, System, SystemOf, fits_world};
use msg_world::{MAX_SYSTEMS, TypeNo};
use std::alloc::Global;
use std::io::Print;
use std::thread::Threads;

/// Adds a system that writes as this number, the next one, and has read nothing yet.
fn add<S: SystemOf<Value = i64>>(
    systems: &mut Vec<S>,
    system: S,
    number: u32,
) -> Result<(), NoMemory>
    requires next { length systems.old.items ≡ number }
    requires new { IsNew number (S.meaning system) }
    requires so_far { EachIs (λ i x. IsNew i (S.meaning x)) systems.old.items }
    ensures next { OnOk result (length systems.new.items ≡ number + 1) }
    ensures so_far { OnOk result (EachIs (λ i x. IsNew i (S.meaning x)) systems.new.items) }
{
    systems.push(system)?;
    Ok(())
}

/// So many places, each without conditions and of the first frame.
fn places(alloc: Global, number: usize) -> Result<Vec<Place>, NoMemory>
    ensures as_many { IfOk result (λ places. length places.items ≡ number) }
    ensures each { IfOk result (λ places. All (λ place. place ≡ default_place) places.items) }
{
    let mut places = Vec::new(alloc);
    for _place in 0..number {
        let conditions = Items::from_vec(Vec::new(alloc));
        places.push(Place {
            conditions,
            join: 1,
        })?;
    }
    Ok(places)
}

/// Refuses systems of which one uses what a world of so many types and resources hasn't got.
fn check_fit<S: SystemOf<Value = i64>>(
    systems: &[S],
    types: u32,
    resources: u32,
) -> anyhow::Result<()>
    ensures fit { OnOk result (All (λ x. FitsWorld types resources
        (with_conditions {V = ℤ} (S.meaning x).needs [])) systems.now) }
{
    for system in systems {
        if !fits_world::<i64>(&system.access(), &[], types, resources) {
            bail!("the world lacks what a system uses");
        }
    }
    Ok(())
}

/// An engine of these systems.
fn engine_of<S: SystemOf<Value = i64>>(
    alloc: Global,
    systems: Vec<S>,
) -> anyhow::Result<EngineOf<S>>
    requires new { EachIs (λ i x. IsNew i (S.meaning x)) systems.items }
    ensures engine { IfOk result (IsEngine i64_values S.meaning) }
{
    let world = world(alloc)?;
    if systems.len() > MAX_SYSTEMS {
        bail!("there are too many systems");
    }
    check_fit(&systems, world.types() as u32, world.resources() as u32)?;
    let places = places(alloc, systems.len())?;
    Ok(EngineOf::new(alloc, world, systems, places, Vec::new(alloc))?)
}

/// Runs frames of scripts that read, and of systems that decide to read, in turn.
pub fn run_boxes<R: Threads + AllocGlobal + Print + Sync>(
    rt: &R,
    from: TypeNo,
    poster: Poster,
    workers: Workers,
) -> anyhow::Result<()> {
    let alloc = rt.alloc();
    let mut systems: Vec<Box<dyn System>> = Vec::new(alloc);
    for number in 0..SYSTEMS {
        if number % 2 == 0 {
            let script = script(vec![in alloc; Op::Read(from, None)]?, number);
            add(&mut systems, Box::new(alloc, script)?, number)?;
        } else {
            let reading = reading(alloc, from, number);
            add(&mut systems, Box::new(alloc, reading)?, number)?;
        }
    }
    let engine: Engine = engine_of(alloc, systems)?;
    run_frames(rt, engine, poster, workers)
}
