// What logs and engines tell, as text that is compared without memory.
//
// " wrote 1 from 0[0 read from 0: host=5][1 was skipped]": the host's post got the number 0; system
// 0 read from the number 0 on, a 5 by the host; system 1 was skipped.
//
// "2 frames, from 1 to 2: 0=7[1 of 0: start Some(0) got 1 missed 1 cleared 0 place 2]": two frames
// were run, the messages of the first type are a 7 by system 0, number 1, and then what the reader
// 1 was given of type 0.
use msg_buffer::{MessageId, Messages};
use msg_exec::{Account, EngineOf, Log, Outcome, Turn};
use msg_part_tests::numbers::type_no;
use msg_system::{Reply, SystemOf, Took};
use msg_world::{HOST, Record};
use std::fmt::{self, Debug, Display, Write};
use std::panic::Expect;
use std::process::Abort;

/// A text that is told part by part.
#[derive(Clone, Copy)]
struct Text<'a> {
    left: &'a str,
    /// Whether another text was told.
    differs: bool,
}

impl Write for Text<'_> {
    fn write_str(&mut self, told: &str) -> fmt::Result {
        match self.left.strip_prefix(told) {
            Some(left) => self.left = left,
            None => self.differs = true,
        }
        Ok(())
    }
}

impl<'a> Text<'a> {
    fn new(left: &'a str) -> Text<'a> {
        Text {
            left,
            differs: false,
        }
    }

    /// What `write!` calls.
    fn write_fmt<D: Display + Drop>(&mut self, told: D) {
        self.differs |= self.write(told).is_err();
    }

    /// All of it was told of what is shown here, and no more.
    fn expect_end(&self, rt: &impl Abort, shown: &impl Debug) {
        if self.differs || !self.left.is_empty() {
            panic!(rt; "{shown:?} tells something else than {}", self.left);
        }
    }
}

fn tell_record<V: Debug>(out: &mut Text<'_>, record: &Record<V>) {
    if record.writer == HOST {
        write!(out, " host={:?}", record.value);
    } else {
        write!(out, " {}={:?}", record.writer, record.value);
    }
}

fn tell_took<V: Debug>(out: &mut Text<'_>, took: &Took<V>) {
    if took.missed > 0 {
        write!(out, " missed {}", took.missed);
    }
    write!(out, " read from {}:", took.first);
    for record in took.items.as_slice() {
        tell_record(out, record);
    }
}

fn tell_reply<V: Debug>(out: &mut Text<'_>, reply: &Reply<V>) {
    match reply {
        Reply::Wrote(written) => write!(out, " wrote {} from {}", written.n, written.first),
        Reply::Read(took) => tell_took(out, took),
        Reply::Forwarded { took, wrote } => {
            tell_took(out, took);
            write!(out, ", {wrote:?}");
        }
        Reply::Summed { took, value } => {
            tell_took(out, took);
            write!(out, ", sum {value:?}");
        }
        _other => write!(out, " {reply:?}"),
    }
}

fn tell_replies<V: Debug>(out: &mut Text<'_>, replies: &[Reply<V>]) {
    for reply in replies {
        tell_reply(out, reply);
    }
}

fn tell_turn<V: Debug>(out: &mut Text<'_>, turn: &Turn<V>) {
    write!(out, "[{}", turn.system);
    match &turn.outcome {
        Outcome::Ran(replies) => tell_replies(out, replies.as_slice()),
        Outcome::Skipped => write!(out, " was skipped"),
    }
    write!(out, "]");
}

fn tell_accounts(out: &mut Text<'_>, accounts: &[Account]) {
    for account in accounts {
        write!(
            out,
            "[{} of {}: start {:?} got {} missed {} cleared {} place {}]",
            account.system,
            account.of_type.number(),
            account.start,
            account.got,
            account.missed,
            account.cleared,
            account.place,
        );
    }
}

fn tell_messages(out: &mut Text<'_>, messages: &Messages<Record>) {
    let (oldest, count) = (messages.oldest(), messages.count());
    write!(out, "from {oldest} to {count}:");
    for number in oldest..count {
        if let Some(record) = messages.get(MessageId(number)) {
            tell_record(out, record);
        }
    }
}

/// The log tells this.
pub fn expect_log<V: Debug>(rt: &impl Abort, log: &Log<V>, want: &str) {
    let mut text = Text::new(want);
    tell_replies(&mut text, log.posts.as_slice());
    for turn in log.turns.as_slice() {
        tell_turn(&mut text, turn);
    }
    text.expect_end(rt, log);
}

/// The accounts tell this.
pub fn expect_accounts(rt: &impl Abort, accounts: &[Account], want: &str) {
    let mut text = Text::new(want);
    tell_accounts(&mut text, accounts);
    text.expect_end(rt, &accounts);
}

/// So many frames were run, and the messages of the first type and the accounts tell this.
fn expect_told(
    rt: &impl Abort,
    frames: u32,
    messages: &Messages<Record>,
    accounts: &[Account],
    want: &str,
) {
    let mut text = Text::new(want);
    write!(text, "{frames} frames, ");
    tell_messages(&mut text, messages);
    tell_accounts(&mut text, accounts);
    text.expect_end(rt, &accounts);
}

/// The engine tells this of its frames, of the messages of the first type, and of its readers.
pub fn expect_engine<S: SystemOf<Value = i64>>(rt: &impl Abort, engine: &EngineOf<S>, want: &str) {
    let world = engine.world().expect(rt, "a world");
    let messages = world.messages(type_no(0)).expect(rt, "type 0 is home");
    let accounts = engine.accounts().expect(rt, "accounts");
    expect_told(rt, engine.frames_run(), messages, &accounts, want);
    drop(accounts);
}
