// Accesses, what a loan shows, a world with nothing in it, and a post that finds no number.
ghost use Rattle.msg_world.specs.Prelude.{IsLoanOf, LendsOut, SameShape};

mod out_of_memory;

use crate::equal::{Have, expect_eq};
use crate::numbers::{of_types, res_no, type_no};
use msg_buffer::{MessageId, WriteRefusal};
use msg_world::laws::lent_parts_are_a_loan;
use msg_world::{Access, HOST, Items, Lent, Record, Taken, TypeNo, World};
use std::process::Abort;

#[test]
fn accesses_of_a_writer_and_a_reader(rt: HostRuntime) {
    let rt = &rt;
    let (writer, reader) = (of_types(0, 1), of_types(1, 0));
    let signals = Access::none().with_registry();
    for (one, other, want) in [
        (writer, reader, true),
        (reader, reader, false),
        (signals, signals, true),
    ] {
        let found = (one.conflicts(&other), other.conflicts(&one));
        expect_eq(rt, found, (want, want));
    }
    expect_eq(rt, writer.union(&reader), writer);
    expect_eq(rt, of_types(1, 1).is_clash(), true);
    expect_eq(rt, (reader.fits(1, 0), reader.fits(0, 0)), (true, false));
}

/// Lends out what this access uses, which is home.
pub fn lend(rt: &impl Abort, world: &mut World, access: &Access) -> Taken
    ensures lent { LendsOut access.now world.old world.new result }
    ensures loan { IsLoanOf access.now world.new result }
{
    lent_parts_are_a_loan::<i64>();
    assert!(rt; world.is_home(access));
    world.lend_out(access).have(rt)
}

/// Whether the messages of a type are home.
fn expect_home(rt: &impl Abort, world: &World, t: TypeNo, want: bool) {
    let is_home = world.is_home(&Access::none().with_read_type(t));
    expect_eq(rt, (is_home, world.messages(t).is_some()), (want, want));
}

#[test]
fn an_empty_world(rt: HostRuntime) {
    let rt = &rt;
    let world = World::<i64>::new(rt.alloc(), &[], &[]).have(rt);
    expect_eq(rt, world.is_home(&Access::none()), true);
    expect_home(rt, &world, type_no(0), false);
    expect_eq(rt, world.resource(res_no(0)), None);
    drop(world);
}

#[test]
fn a_loan_shows_what_its_access_uses(rt: HostRuntime) {
    let rt = &rt;
    let (t, u, r) = (type_no(0), type_no(1), res_no(0));
    let mut world = World::new(rt.alloc(), &[4, 4], &[7]).have(rt);
    let access = Access::none().with_write_type(t).with_read_res(r);
    let taken = lend(rt, &mut world, &access);
    let mut lent = Lent::open(&world, &access, taken);
    expect_home(rt, &world, t, false);
    expect_home(rt, &world, u, true);
    let written = (lent.writer(t).is_some(), lent.writer(u).is_some());
    expect_eq(rt, written, (true, false));
    expect_eq(rt, lent.res_mut(r).is_some(), false);
    drop(lent);
    drop(world);
}

/// Posts a message to a type that is home.
fn post(
    rt: &impl Abort,
    world: &mut World,
    t: TypeNo,
    value: i64,
) -> Result<MessageId, WriteRefusal<Record>>
    ensures shape { SameShape world.old world.new }
{
    assert!(rt; world.messages(t).is_some());
    world.post(t, value)
}

/// What a post handed back since no number is left.
fn spent(came: Result<MessageId, WriteRefusal<Record>>) -> Option<Record> {
    match came {
        Err(WriteRefusal::NumbersSpent(record)) => Some(record),
        _ => None,
    }
}

#[test]
fn a_post_without_a_number(rt: HostRuntime) {
    let rt = &rt;
    let mut world = World::new(rt.alloc(), &[0], &[]).have(rt);
    let record = Record {
        writer: HOST,
        value: 5,
    };
    let back = spent(post(rt, &mut world, type_no(0), 5));
    expect_eq(rt, back, Some(record));
    drop(world);
}

/// A copy of items takes room for what they are, however much room there is where they were made.
#[test]
fn a_copy_takes_room_for_its_items_alone(rt: HostRuntime) {
    let rt = &rt;
    let mut values: Vec<i64> = Vec::with_capacity(rt.alloc(), 100).have(rt);
    values.resize(9, 5).have(rt);
    let items = Items::from_vec(values);
    let copied = items.copy(rt.alloc()).have(rt).into_vec();
    drop(items);
    expect_eq(rt, (copied.len(), copied.capacity()), (9, 9));
    drop(copied);
}
