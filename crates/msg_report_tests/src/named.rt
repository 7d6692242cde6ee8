// What logs and accounts tell with names: each reply, each op before which a turn is cut, a turn
// that is skipped, and readers that wait.
use crate::equal::{Have, expect_text};
use msg_buffer::Written;
use msg_exec::{Account, Backlog, Items, Log, Outcome, Turn};
use msg_names::Names;
use msg_part_tests::numbers::{res_no, type_no};
use msg_system::{Op, Reply, Took};
use msg_world::{HOST, Record};
use std::process::Abort;

const NAMES: Names<'static> = Names {
    systems: &["a", "b", "c"],
    types: &["hit", "pay"],
    resources: &["till"],
};

const WRITTEN: Written = Written { first: 4, n: 2 };

const BY_A: Record = Record {
    value: 6,
    writer: 0,
};

const BY_HOST: Record = Record {
    value: 7,
    writer: HOST,
};

/// A list of these messages.
fn items(rt: &(impl Abort + AllocGlobal), messages: &[Record]) -> Items<Record> {
    Items::from_vec(Vec::from_slice(rt.alloc(), messages).have(rt))
}

/// What took these messages, from number 5 on, and missed two.
fn took(rt: &(impl Abort + AllocGlobal), messages: &[Record]) -> Took {
    Took {
        missed: 2,
        first: 5,
        items: items(rt, messages),
    }
}

/// The replies to writes and reads.
fn add_replies_of_messages(rt: &(impl Abort + AllocGlobal), replies: &mut Vec<Reply>) {
    replies.push(Reply::Wrote(WRITTEN)).have(rt);
    replies.push(Reply::Spent).have(rt);
    let read = took(rt, &[BY_A, BY_HOST]);
    replies.push(Reply::Read(read)).have(rt);
    replies.push(Reply::Read(took(rt, &[]))).have(rt);
    let (first, items) = (9, items(rt, &[BY_A]));
    replies.push(Reply::Drained { first, items }).have(rt);
}

/// The replies to what reads and then tells of something else.
fn add_replies_of_both(rt: &(impl Abort + AllocGlobal), replies: &mut Vec<Reply>) {
    for wrote in [Some(WRITTEN), None] {
        let took = took(rt, &[BY_A]);
        replies.push(Reply::Forwarded { took, wrote }).have(rt);
    }
    let took = took(rt, &[BY_A]);
    replies.push(Reply::Summed { took, value: 12 }).have(rt);
}

/// The replies without messages.
fn add_replies_of_numbers(rt: &(impl Abort + AllocGlobal), replies: &mut Vec<Reply>) {
    replies.push(Reply::Len(3)).have(rt);
    replies.push(Reply::Missed(4)).have(rt);
    let cleared = Reply::Cleared {
        missed: 1,
        first: 2,
        n: 5,
    };
    replies.push(cleared).have(rt);
    replies.push(Reply::Value(8)).have(rt);
    replies.push(Reply::Signalled).have(rt);
}

/// The log of a turn of system 0 with these replies, after posts that were answered so, and of one
/// of system 1 that was skipped.
fn log_of(rt: &(impl Abort + AllocGlobal), posts: Vec<Reply>, replies: Vec<Reply>) -> Log {
    let (ran, alloc) = (Outcome::Ran(Items::from_vec(replies)), rt.alloc());
    let mut turns = Vec::new(alloc);
    for (system, outcome) in [(0, ran), (1, Outcome::Skipped)] {
        turns.push(Turn { system, outcome }).have(rt);
    }
    Log {
        posts: Items::from_vec(posts),
        turns: Items::from_vec(turns),
    }
}

#[test]
fn each_reply_is_told_by_name(rt: HostRuntime) {
    const TOLD: &str = "\
        host wrote 4+2\n\
        host spent\n\
        a wrote 4+2\n\
        a spent\n\
        a missed 2: 5=6@a 6=7@host\n\
        a missed 2: none\n\
        a drained: 9=6@a\n\
        a missed 2: 5=6@a; wrote 4+2\n\
        a missed 2: 5=6@a; spent\n\
        a missed 2: 5=6@a; 12\n\
        a len 3\n\
        a missed 4\n\
        a missed 1 cleared 5\n\
        a value 8\n\
        a signalled\n\
        b skipped\n";
    let rt = &rt;
    let posts = vec![in rt.alloc(); Reply::Wrote(WRITTEN), Reply::Spent].have(rt);
    let mut replies = Vec::new(rt.alloc());
    add_replies_of_messages(rt, &mut replies);
    add_replies_of_both(rt, &mut replies);
    add_replies_of_numbers(rt, &mut replies);
    let log = log_of(rt, posts, replies);
    expect_text(rt, &NAMES.log(&log), TOLD);
    drop(log);
}

/// Op `number` of all that there are: each works on the first type or the resource, and a forward
/// writes the second type.
fn op_of(rt: &(impl Abort + AllocGlobal), number: u32) -> Op {
    let (t, r) = (type_no(0), res_no(0));
    match number {
        0 => Op::Write(t, 1),
        1 => Op::Batch(t, Items::from_vec(Vec::new(rt.alloc()))),
        2 => Op::Read(t, None),
        3 => Op::Len(t),
        4 => Op::Missed(t),
        5 => Op::Clear(t),
        6 => Op::Forward(t, type_no(1)),
        7 => Op::Sum(t, r),
        8 => Op::Get(r),
        9 => Op::Set(r, 1),
        10 => Op::Add(r, 1),
        11 => Op::Drain(t),
        _ => Op::Signal,
    }
}

#[test]
fn each_cut_is_told_by_name(rt: HostRuntime) {
    const OPS: &[&str] = &[
        "write hit",
        "batch hit",
        "read hit",
        "len hit",
        "missed hit",
        "clear hit",
        "forward hit pay",
        "sum hit till",
        "get till",
        "set till",
        "add till",
        "drain hit",
        "signal",
    ];
    let rt = &rt;
    for (number, op) in (0..13).zip(OPS) {
        let cuts = [
            Reply::Outside(op_of(rt, number)),
            Reply::Full(op_of(rt, number)),
        ];
        let cuts = Vec::from_array(rt.alloc(), cuts).have(rt);
        let log = log_of(rt, Vec::new(rt.alloc()), cuts);
        let told = format!(in rt.alloc();
            "a cut before {op}, outside its access\na cut before {op}, full\nb skipped\n"
        );
        let told = told.have(rt);
        expect_text(rt, &NAMES.log(&log), told.as_str());
        drop((log, told));
    }
}

/// The account of a reader that starts here.
fn account(start: Option<u64>) -> Account {
    Account {
        system: 2,
        of_type: type_no(1),
        start,
        got: 3,
        missed: 4,
        cleared: 5,
        place: 14,
    }
}

#[test]
fn accounts_are_told_by_name(rt: HostRuntime) {
    let rt = &rt;
    let left = Some(Backlog { lost: 6, unread: 7 });
    let told = "c reads pay: start 2 got 3 missed 4 cleared 5 place 14 lost 6 unread 7";
    expect_text(rt, &NAMES.account(account(Some(2)), left), told);
    let told = "c reads pay: start 2 got 3 missed 4 cleared 5 place 14";
    expect_text(rt, &NAMES.account(account(Some(2)), None), told);
    let told = "c reads pay: hasn't joined lost 6 unread 7";
    expect_text(rt, &NAMES.account(account(None), left), told);
    let told = "c reads pay: hasn't joined";
    expect_text(rt, &NAMES.account(account(None), None), told);
}
