// After a refused loan all is home and as before; after a refused write or post all is as before,
// and the message is handed back.
ghost use Rattle.msg_world.specs.Prelude.{SameLoan};

use super::{expect_home, post};
use crate::equal::{Have, expect_eq};
use crate::numbers::{res_no, type_no};
use crate::outcome::tell;
use msg_buffer::{MessageId, WriteRefusal};
use msg_world::laws::{lent_parts_are_a_loan, lent_parts_may_come_home, writes_stand};
use msg_world::{Access, HOST, Lent, Record, World};
use std::process::Abort;
use std::test::Fail;

/// Whether a message was written, and got this number. If it wasn't there was no memory, and it
/// was handed back.
fn is_written(
    rt: &impl Abort,
    came: Result<MessageId, WriteRefusal<Record>>,
    number: u64,
    record: Record,
) -> bool {
    let (is_written, found) = match came {
        Ok(id) => (true, (Some(id), None)),
        Err(WriteRefusal::NoMemory(back)) => (false, (None, Some(back))),
        Err(WriteRefusal::NumbersSpent(_)) => (false, (None, None)),
    };
    let want = if is_written {
        (Some(MessageId(number)), None)
    } else {
        (None, Some(record))
    };
    expect_eq(rt, found, want);
    is_written
}

/// The first type is home, and keeps these messages; so is the resource.
fn expect_kept(rt: &impl Abort, world: &World, want: [Option<Record>; 2]) {
    let messages = world.messages(type_no(0)).have(rt);
    let found = [0, 1].map(|number| messages.get(MessageId(number)).copied());
    expect_eq(rt, (found, world.resource(res_no(0))), (want, Some(7)));
    let count = want[0].is_some() as u64 + want[1].is_some() as u64;
    expect_eq(rt, (messages.oldest(), messages.count()), (0, count));
}

/// Writes a message to the type that is lent for writing: it is false if there was no memory for
/// that.
fn write(rt: &impl Abort, lent: &mut Lent, record: Record) -> bool
    ensures same { SameLoan lent.old lent.new }
{
    writes_stand::<i64>();
    let messages = lent.writer(type_no(0)).have(rt);
    is_written(rt, messages.write(record), 0, record)
}

#[test]
fn lending(rt: HostRuntime) -> Result<(), Fail> {
    let rt = &rt;
    let mut world = World::new(rt.alloc(), &[4], &[7])?;
    let (t, r) = (type_no(0), res_no(0));
    let access = Access::none().with_write_type(t).with_read_res(r);
    assert!(rt; world.is_home(&access));
    lent_parts_are_a_loan::<i64>();
    let record = Record {
        writer: 3,
        value: 9,
    };
    let mut wrote = false;
    if let Ok(taken) = world.lend_out(&access) {
        expect_eq(rt, world.is_home(&access), false);
        expect_home(rt, &world, t, false);
        let mut lent = Lent::open(&world, &access, taken);
        expect_eq(rt, (lent.reader(t).is_some(), lent.res(r)), (true, Some(7)));
        wrote = write(rt, &mut lent, record);
        lent_parts_may_come_home::<i64>();
        let taken = lent.into_taken();
        world.take_back(taken);
    }
    expect_eq(rt, world.is_home(&access), true);
    expect_kept(rt, &world, [wrote.then_some(record), None]);
    if wrote {
        wrote = is_posted(rt, &mut world, record);
    }
    drop(world);
    tell(rt, !wrote)
}

/// Whether there was memory for a post behind the message 0.
fn is_posted(rt: &impl Abort, world: &mut World, first: Record) -> bool {
    let next = Record {
        writer: HOST,
        value: 5,
    };
    let came = post(rt, world, type_no(0), 5);
    let is_posted = is_written(rt, came, 1, next);
    expect_kept(rt, world, [Some(first), is_posted.then_some(next)]);
    is_posted
}

/// No other message was written since the world was updated: so a post finds an empty half.
#[test]
fn a_post(rt: HostRuntime) -> Result<(), Fail> {
    let rt = &rt;
    let mut world = World::new(rt.alloc(), &[4], &[7])?;
    let first = Record {
        writer: HOST,
        value: 6,
    };
    let came = post(rt, &mut world, type_no(0), 6);
    let mut is_there = is_written(rt, came, 0, first);
    if is_there {
        world.update_all();
        is_there = is_posted(rt, &mut world, first);
    }
    drop(world);
    tell(rt, !is_there)
}
