// Systems of the three kinds, each run on a loan of its own.
mod out_of_memory;

use crate::equal::{Have, expect_eq};
use crate::numbers::{res_no, type_no};
use crate::worlds::lend;
use msg_buffer::MessageId;
use msg_system::{
    Items, Op, Program, Relay, Reply, Scripted, Start, System, Tally, open_loans_cover,
};
use msg_world::laws::lent_parts_may_come_home;
use msg_world::{Lent, Record, TypeNo, World};
use std::alloc::Global;
use std::process::Abort;

/// Runs a system once, on a loan of what it uses.
fn run_once<S: System>(
    rt: &impl Abort,
    alloc: Global,
    world: &mut World,
    system: &mut S,
    out: &mut Vec<Reply>,
) {
    let access = system.access();
    let taken = lend(rt, world, &access);
    let lent = Lent::open(world, &access, taken);
    open_loans_cover::<i64>();
    let taken = system.run(alloc, lent, out).have(rt);
    lent_parts_may_come_home::<i64>();
    world.take_back(taken);
}

const REPLIES: &str = "[Wrote(Written { first: 0, n: 1 }), Wrote(Written { first: 1, n: 1 }), \
     Forwarded { took: Took { missed: 0, first: 0, items: Items { items: [\
     Record { writer: 0, value: 5 }, Record { writer: 0, value: 6 }] } }, \
     wrote: Some(Written { first: 0, n: 2 }) }, \
     Summed { took: Took { missed: 0, first: 0, items: Items { items: [\
     Record { writer: 1, value: 5 }, Record { writer: 1, value: 6 }] } }, value: 18 }]";

/// A script that writes two messages.
fn writer(rt: &(impl Abort + AllocGlobal), t: TypeNo) -> Scripted {
    let ops = vec![in rt.alloc(); Op::Write(t, 5), Op::Write(t, 6)].have(rt);
    let (ops, start) = (Items::from_vec(ops), Start::Zero);
    Scripted::new(Program { ops, start }, 0)
}

fn boxed<S>(rt: &(impl Abort + AllocGlobal), system: S) -> Box<S> {
    Box::new(rt.alloc(), system).have(rt)
}

/// A script, a relay and a tally.
#[test]
fn a_list_of_three_boxes(rt: HostRuntime) {
    let rt = &rt;
    let (t, u, r) = (type_no(0), type_no(1), res_no(0));
    let mut boxes: Vec<Box<dyn System>> = Vec::new(rt.alloc());
    boxes.push(boxed(rt, writer(rt, t))).have(rt);
    let relay = Relay::new(t, u, Start::Zero, 1);
    boxes.push(boxed(rt, relay)).have(rt);
    let tally = Tally::new(u, r, Start::Zero, 2);
    boxes.push(boxed(rt, tally)).have(rt);
    let mut world = World::new(rt.alloc(), &[9, 9], &[7]).have(rt);
    let mut replies = Vec::new(rt.alloc());
    for system in boxes.as_mut_slice() {
        run_once(rt, rt.alloc(), &mut world, system, &mut replies);
    }
    drop(boxes);
    expect_replies(rt, replies, REPLIES);
    drop(world);
}

/// The replies show themselves so.
fn expect_replies(rt: &(impl Abort + AllocGlobal), replies: Vec<Reply>, want: &str) {
    let text = format!(in rt.alloc(); "{replies:?}").have(rt);
    drop(replies);
    expect_eq(rt, text.as_str(), want);
    drop(text);
}

/// Posts these values to a type that is home.
fn post_all(rt: &impl Abort, world: &mut World, t: TypeNo, values: &[i64]) {
    for value in values {
        assert!(rt; world.messages(t).is_some());
        world.post(t, *value).have(rt);
    }
}

const FORWARDED: &str = "[Forwarded { took: Took { missed: 0, first: 0, items: Items { items: [\
     Record { writer: 256, value: 1 }, Record { writer: 256, value: 2 }] } }, wrote: None }, \
     Forwarded { took: Took { missed: 0, first: 2, items: Items { items: [\
     Record { writer: 256, value: 3 }] } }, wrote: Some(Written { first: 0, n: 1 }) }]";

/// A relay whose first turn finds too few numbers for what it reads, and whose second turn, after a
/// post and no update, goes on behind that.
#[test]
fn a_relay_runs_twice(rt: HostRuntime) {
    let rt = &rt;
    let (t, u) = (type_no(0), type_no(1));
    let mut world = World::new(rt.alloc(), &[10, 1], &[]).have(rt);
    let mut relay = Relay::new(t, u, Start::Zero, 0);
    let mut replies = Vec::new(rt.alloc());
    for values in [&[1, 2].as_slice(), &[3].as_slice()] {
        post_all(rt, &mut world, t, values);
        run_once(rt, rt.alloc(), &mut world, &mut relay, &mut replies);
    }
    expect_replies(rt, replies, FORWARDED);
    let messages = world.messages(u).have(rt);
    let record = Record {
        writer: 0,
        value: 3,
    };
    expect_eq(rt, messages.get(MessageId(0)).copied(), Some(record));
    drop(world);
}

const SUMMED: &str = "[Summed { took: Took { missed: 0, first: 0, items: Items { items: [\
     Record { writer: 256, value: 1 }, Record { writer: 256, value: -5 }] } }, \
     value: 9223372036854775802 }]";

/// A tally adds the values one by one, each sum within the range of `i64`.
#[test]
fn a_tally_at_the_end_of_its_range(rt: HostRuntime) {
    let rt = &rt;
    let (t, r) = (type_no(0), res_no(0));
    let mut world = World::new(rt.alloc(), &[10], &[9_223_372_036_854_775_807]).have(rt);
    let mut tally = Tally::new(t, r, Start::Zero, 0);
    let mut replies = Vec::new(rt.alloc());
    post_all(rt, &mut world, t, &[1, -5]);
    run_once(rt, rt.alloc(), &mut world, &mut tally, &mut replies);
    expect_replies(rt, replies, SUMMED);
    expect_eq(rt, world.resource(r), Some(9_223_372_036_854_775_802));
    drop(world);
}
