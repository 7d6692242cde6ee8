// Systems of several kinds in one engine, each in a box: a script, a relay, a tally, and one that
// implements `System` itself.
ghost use Rattle.std.specs.Prelude.{◌≡◌, ◌+◌, ◌≤◌, [], ℤ, All, length};
ghost use Rattle.std.specs.Box.{box_value};
ghost use Rattle.msg_exec.specs.Prelude.{EachIs, IsEngine};
ghost use Rattle.msg_frames.specs.Prelude.{IsNew, default_place};
ghost use Rattle.msg_system.specs.Prelude.{FitsWorld, with_conditions};
ghost use Rattle.msg_world.specs.Prelude.{i64_values};

use crate::expecting::{Told, expect_frame, expect_replay};
use crate::told::expect_engine;
use msg_exec::{Engine, EngineOf, Items, Place};
use msg_part_tests::numbers::{res_no, type_no};
use msg_system::{
    Access, Cursors, NoMemory, Op, Program, Refused, Relay, Reply, Scripted, Start, System,
    SystemOf, Tally, fits_world, one_op_is_a_turn,
};
use msg_world::{Counts, Lent, MAX_RESOURCES, MAX_SYSTEMS, MAX_TYPES, Taken, TypeNo, World};
use std::alloc::Global;
use std::panic::Expect;
use std::process::Abort;
use std::thread::Threads;

/// Reads a type in each turn. It is a `System` by an impl of its own, and no `SystemOf`: so it runs
/// in a box alone.
#[derive(Drop)]
struct Listener {
    from: TypeNo,
    writer: u32,
    cursors: Cursors,
}

impl System for Listener {
    ghost use Rattle.std.specs.Prelude.{None};
    ghost use Rattle.msg_system.specs.{declared.op.Op.TheVariants.Read, declared.start.Start.TheVariants.Zero};
    ghost use Rattle.msg_system.specs.Prelude.{of_program, only, cursor_places};

    ghost meaning = { λ l. of_program (only (Read l.from None) Zero) l.writer
        (cursor_places l.cursors) };

    fn access(&self) -> Access {
        Access::none().with_read_type(self.from)
    }

    fn read_type(&self, op: u32) -> Option<TypeNo> {
        if op == 0 { Some(self.from) } else { None }
    }

    fn refused(&self, _op: u32, _reply: &Reply) -> Option<Refused> {
        None
    }

    fn begins(&self) -> Start {
        Start::Zero
    }

    fn start(&mut self, counts: &Counts) {
        let access = self.access();
        self.cursors.start(access, Start::Zero, counts);
    }

    fn run(&mut self, alloc: Global, lent: Lent, out: &mut Vec<Reply>) -> Result<Taken, NoMemory> {
        one_op_is_a_turn::<i64>();
        let mut lent = lent;
        let op = Op::Read(self.from, None);
        out.push(op.run(alloc, self.writer, &mut self.cursors, &mut lent)?)?;
        Ok(lent.into_taken())
    }
}

impl Listener {
    /// It writes as this number, and has read nothing yet.
    fn new(from: TypeNo, number: u32) -> Listener
        ensures new { IsNew number (⟦<Listener as System>⟧.meaning result) }
    {
        Listener {
            from,
            writer: number,
            cursors: Cursors::new(),
        }
    }
}

/// The system of number 0, which writes a 5 to this type.
fn writer(rt: &(impl Abort + AllocGlobal), to: TypeNo) -> Scripted
    ensures new { IsNew 0 (⟦<Scripted as SystemOf>⟧.meaning result) }
{
    let ops = vec![in rt.alloc(); Op::Write(to, 5)].expect(rt, "ops");
    let program = Program {
        ops: Items::from_vec(ops),
        start: Start::Zero,
    };
    Scripted::new(program, 0)
}

fn boxed<S>(rt: &(impl Abort + AllocGlobal), system: S) -> Box<S>
    ensures value { box_value result ≡ system }
{
    Box::new(rt.alloc(), system).expect(rt, "a box")
}

/// Adds a system that writes as this number, the next one, and has read nothing yet.
fn add<S: SystemOf<Value = i64>>(rt: &impl Abort, systems: &mut Vec<S>, system: S, number: u32)
    requires next { length systems.old.items ≡ number }
    requires new { IsNew number (S.meaning system) }
    requires so_far { EachIs (λ i x. IsNew i (S.meaning x)) systems.old.items }
    ensures next { length systems.new.items ≡ number + 1 }
    ensures so_far { EachIs (λ i x. IsNew i (S.meaning x)) systems.new.items }
{
    systems.push(system).expect(rt, "a list");
}

/// So many places, each without conditions and of the first frame.
fn places(rt: &impl Abort, alloc: Global, number: usize) -> Vec<Place>
    ensures as_many { length result.items ≡ number }
    ensures each { All (λ place. place ≡ default_place) result.items }
{
    let mut places = Vec::new(alloc);
    for _place in 0..number {
        let conditions = Items::from_vec(Vec::new(alloc));
        places
            .push(Place {
                conditions,
                join: 1,
            })
            .expect(rt, "a place");
    }
    places
}

/// A world of so many types and resources has what each of these uses.
fn expect_fit<S: SystemOf<Value = i64>>(rt: &impl Abort, systems: &[S], types: u32, resources: u32)
    ensures fit { All (λ x. FitsWorld types resources
        (with_conditions {V = ℤ} (S.meaning x).needs [])) systems.now }
{
    for system in systems {
        let access = system.access();
        assert!(rt; fits_world::<i64>(&access, &[], types, resources));
    }
}

/// An engine of these systems, over types of these limits and over these resources.
fn engine_of<S: SystemOf<Value = i64>>(
    rt: &impl Abort,
    alloc: Global,
    systems: Vec<S>,
    limits: &[u64],
    resources: &[i64],
) -> EngineOf<S>
    requires types { length limits.now ≤ MAX_TYPES }
    requires resources { length resources.now ≤ MAX_RESOURCES }
    requires new { EachIs (λ i x. IsNew i (S.meaning x)) systems.items }
    ensures engine { IsEngine i64_values S.meaning result }
{
    assert!(rt; systems.len() <= MAX_SYSTEMS);
    let world = World::new(alloc, limits, resources).expect(rt, "a world");
    expect_fit(rt, &systems, world.types() as u32, world.resources() as u32);
    let places = places(rt, alloc, systems.len());
    let engine = EngineOf::new(alloc, world, systems, places, Vec::new(alloc));
    engine.expect(rt, "an engine")
}

/// What the frames tell: the relay reads what the script writes after the post, and forwards it to
/// the tally and to the listener, which may run side by side.
const FRAMES: &[Told<'static>] = &[
    (
        &[6],
        " wrote 1 from 0[0 wrote 1 from 1]\
         [1 read from 0: host=6 0=5, Some(Written { first: 0, n: 2 })]\
         [2 read from 0: 1=6 1=5, sum 18][3 read from 0: 1=6 1=5]",
    ),
    (
        &[],
        "[0 wrote 1 from 2][1 read from 2: 0=5, Some(Written { first: 2, n: 1 })]\
         [2 read from 2: 1=5, sum 23][3 read from 2: 1=5]",
    ),
];

/// A third frame, which is replayed with the listener before the tally.
const REPLAYED: &Told<'static> = &(
    &[],
    "[0 wrote 1 from 3][1 read from 3: 0=5, Some(Written { first: 3, n: 1 })]\
     [3 read from 3: 1=5][2 read from 3: 1=5, sum 28]",
);

const TOLD: &str = "3 frames, from 2 to 4: 0=5 0=5\
    [1 of 0: start Some(0) got 4 missed 0 cleared 0 place 4]\
    [2 of 1: start Some(0) got 4 missed 0 cleared 0 place 4]\
    [3 of 1: start Some(0) got 4 missed 0 cleared 0 place 4]";

/// Runs the frames on so many workers, and drops the engine.
fn expect_told<R: Threads + Sync + Abort + AllocGlobal, S: SystemOf<Value = i64> + Send>(
    rt: &R,
    mut engine: EngineOf<S>,
    number: u32,
)
    requires engine { IsEngine i64_values S.meaning engine }
{
    for frame in FRAMES {
        expect_frame(rt, &mut engine, number, frame);
    }
    expect_replay(rt, &mut engine, &[0, 1, 3, 2], REPLAYED);
    expect_engine(rt, &engine, TOLD);
    drop(engine);
}

/// Makes the four systems, and runs the frames on so many workers.
fn expect_boxes<R: Threads + Sync + Abort + AllocGlobal>(rt: &R, number: u32) {
    let (t, u, sum) = (type_no(0), type_no(1), res_no(0));
    let mut systems: Vec<Box<dyn System>> = Vec::new(rt.alloc());
    add(rt, &mut systems, boxed(rt, writer(rt, t)), 0);
    add(
        rt,
        &mut systems,
        boxed(rt, Relay::new(t, u, Start::Zero, 1)),
        1,
    );
    add(
        rt,
        &mut systems,
        boxed(rt, Tally::new(u, sum, Start::Zero, 2)),
        2,
    );
    add(rt, &mut systems, boxed(rt, Listener::new(u, 3)), 3);
    let engine: Engine = engine_of(rt, rt.alloc(), systems, &[20, 20], &[7]);
    expect_told(rt, engine, number);
}

#[test]
fn four_boxes(rt: HostRuntime) {
    for number in [1, 2] {
        expect_boxes(&rt, number);
    }
}
