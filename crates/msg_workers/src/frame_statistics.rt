// What batches have shown in all places of a frame, and what pays for their tries.
use crate::PlaceStatistics;
use crate::place_statistics::{BatchMode, LOOKED_AT};
use msg_board::MAX_JOBS;
use std::marker::Model;

/// A frame has no more batches than systems, and those are no more than the jobs of a board.
const PLACES: usize = MAX_JOBS;

/// What a try costs, if it doesn't pay, for its threads. It takes as long as the start of a thread
/// and its end, from 10 to 400 us; a batch in place that is as large takes some 5 ms.
const PRICE: i64 = 4_194_304;

/// What it costs beside for each job, which goes to a board and comes back.
const PRICE_OF_JOB: i64 = PRICE / 64;

/// As much is there at first. It suffices for one try of any number of jobs: if that costs more,
/// the rest is owed.
const FIRST: i64 = 2 * PRICE;

/// There is never more than this, and no try costs more.
const MOST: i64 = 6 * FIRST;

/// What batches have shown in each place of a frame, and one account for all that pays for tries.
///
/// Batches earn as much as they did, those in place as told by the ones that are looked at; but a
/// batch over workers that didn't pay takes its price. A batch goes over workers if enough ran in
/// place there, and the price is there or workers paid there. So all tries together take a small
/// part of the time, however many places there are. Contracts see nothing of it.
#[derive(Drop)]
pub struct FrameStatistics {
    places: [PlaceStatistics; PLACES],
    /// The place of the batch that runs.
    place: usize,
    mode: BatchMode,
    /// What the batch that runs costs over workers, if it doesn't pay.
    price: i64,
    account: i64,
}

impl Model for FrameStatistics {
    ghost use Rattle.std.specs.Prelude.{⊤};

    ghost Value = { ⊤ };

    ghost view = { λ _. tt };
}

impl FrameStatistics {
    pub fn new() -> FrameStatistics {
        FrameStatistics {
            places: [PlaceStatistics::new(); PLACES],
            place: 0,
            mode: BatchMode::InPlace,
            price: PRICE,
            account: FIRST,
        }
    }

    /// The first batch of a frame is next.
    pub fn begin_frame(&mut self) {
        self.place = 0;
    }

    /// Whether the batch in this place, of so many jobs, goes over so many workers.
    pub fn goes_over_workers(&mut self, workers: u32, jobs: usize) -> bool {
        let of_jobs = PRICE_OF_JOB.saturating_mul(jobs.min(PLACES) as i64);
        self.price = PRICE.saturating_add(of_jobs).min(MOST);
        let has_price = self.account >= self.price.min(FIRST);
        self.mode = if workers > 1 && jobs > 1 {
            self.current_place().next_mode(has_price)
        } else {
            BatchMode::InPlace
        };
        matches!(self.mode, BatchMode::OverWorkers)
    }

    /// What the batches in this place have shown.
    pub fn current_place(&mut self) -> &mut PlaceStatistics {
        let place = self.place.min(PLACES - 1);
        &mut self.places[place]
    }

    /// Whether it matters how much the batch in this place did.
    pub fn asks_size(&self) -> bool {
        !matches!(self.mode, BatchMode::InPlace)
    }

    /// Learns how much the batch in this place did.
    pub fn learn(&mut self, size: u64) {
        match self.mode {
            BatchMode::InPlace => {}
            BatchMode::LookedAt => {
                self.current_place().did_in_place(size);
                self.earn(size.saturating_mul(u64::from(LOOKED_AT)));
            }
            BatchMode::OverWorkers => {
                self.current_place().did_over_workers(size);
                if self.current_place().pays() {
                    self.earn(size);
                } else {
                    self.account = self.account.saturating_sub(self.price);
                }
            }
        }
    }

    fn earn(&mut self, size: u64) {
        let earned = size.min(MOST as u64) as i64;
        self.account = self.account.saturating_add(earned).min(MOST);
    }

    /// The batch in the next place is next.
    pub fn next_place(&mut self) {
        self.place = self.place.saturating_add(1);
    }
}
