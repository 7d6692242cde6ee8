//! Threads that wait for each other.
use std::sync::atomic::{AtomicU64, Ordering};
use std::thread::yield_now;
use std::time::{Clock, Instant};

/// So many seconds a thread waits at most. A test has 60.
const LONGEST_WAIT: u64 = 40;

/// Where threads wait until so many came. Once one has waited too long, none waits any more.
#[derive(Drop)]
pub struct Meeting<'a, C> {
    clock: &'a C,
    awaited: u64,
    came: AtomicU64,
    missed: AtomicU64,
}

impl<'a, C: Clock> Meeting<'a, C> {
    pub fn new(clock: &'a C, awaited: u64) -> Meeting<'a, C> {
        Meeting {
            clock,
            awaited,
            came: AtomicU64::new(0),
            missed: AtomicU64::new(0),
        }
    }

    /// One more came. Gives how many came before.
    pub fn come(&self) -> u64 {
        self.came.fetch_add(1, Ordering::SeqCst)
    }

    /// Waits until all that are awaited came.
    pub fn wait(&self) {
        let Ok(start) = Instant::now(self.clock) else {
            self.give_up();
            return;
        };
        for _ in 0..u64::MAX {
            if self.came() >= self.awaited || self.missed() > 0 {
                return;
            }
            let waited = start.elapsed(self.clock);
            if waited.map_or(true, |waited| waited.as_secs() >= LONGEST_WAIT) {
                self.give_up();
                return;
            }
            yield_now();
        }
    }

    fn give_up(&self) {
        self.missed.fetch_add(1, Ordering::SeqCst);
    }

    /// How many came.
    pub fn came(&self) -> u64 {
        self.came.load(Ordering::SeqCst)
    }

    /// How many waited for those who didn't come.
    pub fn missed(&self) -> u64 {
        self.missed.load(Ordering::SeqCst)
    }
}
