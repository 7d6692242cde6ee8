// A system that is one function.
use msg_function::{Function, Inbox, NoMemory, Outbox};

/// What it reads, and what it writes.
const HEARD: usize = 0;

const TOLD: usize = 0;

/// Remembers how many messages it was given last, and writes one if some came.
#[derive(Drop)]
pub struct Hearing {
    pub heard: u64,
}

impl Function<1, 1> for Hearing {
    type Value = i64;

    ghost use Rattle.frame_bench.specs.Readings.{hears};

    ghost answers = { hears };

    fn answer(&mut self, inbox: &Inbox<i64>, outbox: &mut Outbox<i64, 1>) -> Result<(), NoMemory> {
        self.heard = inbox.read(HEARD).len() as u64;
        if self.heard > 0 {
            outbox.write(TOLD, 1)?;
        }
        Ok(())
    }
}
