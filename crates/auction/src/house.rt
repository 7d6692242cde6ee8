use crate::event::Event;
use msg_game::{Frame, Global, Host, Log, NoMemory, TypeNo};

/// Opens a lot when the one before is gone, and ends when the last one is.
#[derive(Drop)]
pub struct House {
    pub porter: u32,
    pub opened: TypeNo,
    pub lots: u32,
}

impl Host for House {
    type Value = Event;

    fn next(
        &mut self,
        alloc: Global,
        last: Option<&Log<Event>>,
    ) -> Result<Option<Frame<Event>>, NoMemory> {
        let gone = |log: &Log<Event>, k| log.read_by(self.porter, k).len();
        if last.is_some_and(|log| gone(log, 0) + gone(log, 1) == 0) {
            return Ok(Some(Frame::quiet(alloc)));
        }
        if self.lots == 0 {
            return Ok(None);
        }
        let lot = Event::Opened(self.lots, 10);
        self.lots -= 1;
        Ok(Some(Frame::of(vec![in alloc; (self.opened, lot)]?)))
    }
}
