// Whether workers have paid, and how many to start at once.
ghost use Rattle.std.specs.Prelude.{◌≡◌, ◌+◌, ◌-◌, ◌*◌, ◌/◌, ◌<◌, ◌≤◌, ◌↔◌, ◌&&◌, ◌||◌, IsTrue, if◌then◌else◌, max, min, nat_le, nat_lt, not};

/// At most so many batches run in place between two tries.
const LONGEST_PAUSE: u32 = 256;

/// If others than the first worker did so much of a batch, they paid for the starts of their
/// threads.
const WORTH: u64 = 65_536;

/// One in so many of the batches in place is looked at: how much it did.
pub(crate) const LOOKED_AT: u32 = 8;

/// How a batch runs.
#[derive(Clone, Copy, Debug)]
pub(crate) enum BatchMode {
    InPlace,
    /// In place, and it is told how much it did.
    LookedAt,
    OverWorkers,
}

/// What the batches in one place of a frame have shown so far: whether the next of them goes over
/// workers, and how many of these begin at once.
///
/// A batch over workers paid if others than the first worker did much, or ran at least a quarter of
/// its jobs; if there is one other, which begins without a look, at least 3 in 8. If it didn't, the
/// first worker ran too many by the time that the others had started: so the next batch runs in
/// place, and after each further try that doesn't pay twice as many do, at most `LONGEST_PAUSE`. If
/// a try pays, the next batch goes over workers too, and half as many will run in place after one
/// that doesn't: it may have paid by chance. A batch in place that is looked at and did more than
/// twice as much as the one of the last try is followed by a try. No result depends on it.
#[derive(Clone, Copy, Debug)]
pub struct PlaceStatistics {
    /// How many others the first worker starts before it runs a job.
    pub at_once: u32,
    /// How many jobs the last batch over workers had, and how many of them others than the first
    /// worker ran.
    jobs: u32,
    others: u32,
    /// Whether those were many.
    many: bool,
    /// Whether that batch paid.
    pays: bool,
    /// How many batches run in place before workers are tried again.
    in_place: u32,
    /// How many ran in place before the last try; half as many if it paid.
    pause: u32,
    /// How much the batch of the last try did.
    tried: u64,
}

impl PlaceStatistics {
    /// Nothing was tried yet: the next batch is tried over workers, which start one another.
    pub fn new() -> PlaceStatistics {
        PlaceStatistics {
            at_once: 1,
            jobs: 0,
            others: 0,
            many: false,
            pays: false,
            in_place: 0,
            pause: 0,
            tried: 0,
        }
    }

    /// Whether the last batch over workers paid.
    pub(crate) fn pays(&self) -> bool {
        self.pays
    }

    /// How the next batch runs: over workers if enough ran in place, and workers paid or there is
    /// the price of a try. If there isn't, some more run in place.
    pub(crate) fn next_mode(&mut self, has_price: bool) -> BatchMode
        ensures over { result ≡ BatchMode.OverWorkers
            ↔ ((self.old.in_place ≡ 0) × IsTrue (self.old.pays || has_price)) }
        ensures one_less { 0 < self.old.in_place
            → self.new ≡ record self.old { in_place = self.old.in_place - 1 } }
        ensures some_more { self.old.in_place ≡ 0 → IsTrue (not (self.old.pays || has_price))
            → self.new ≡ record self.old { in_place = LOOKED_AT - 1 } }
    {
        if self.in_place == 0 {
            if self.pays || has_price {
                return BatchMode::OverWorkers;
            }
            self.in_place = LOOKED_AT;
        }
        self.in_place -= 1;
        if self.in_place % LOOKED_AT == 0 {
            BatchMode::LookedAt
        } else {
            BatchMode::InPlace
        }
    }

    /// Learns how much the batch did that was tried over workers, and whether it paid.
    pub(crate) fn did_over_workers(&mut self, size: u64)
        ensures pays { self.new.pays ≡ (self.old.many
            || nat_le WORTH (size / max self.old.jobs 1 * self.old.others)) }
        ensures pause { self.new.pause ≡ (if self.new.pays then self.old.pause / 2
            else min (max (self.old.pause * 2) 1) LONGEST_PAUSE) }
        ensures in_place { self.new.in_place ≡ (if self.new.pays then 0 else self.new.pause) }
        ensures tried { self.new ≡ record self.old {
          pays = self.new.pays;
          pause = self.new.pause;
          in_place = self.new.in_place;
          tried = size;
        } }
    {
        let by_others = (size / u64::from(self.jobs.max(1))).saturating_mul(u64::from(self.others));
        self.tried = size;
        self.pays = self.many || by_others >= WORTH;
        self.pause = if self.pays {
            self.pause / 2
        } else {
            self.pause.saturating_mul(2).clamp(1, LONGEST_PAUSE)
        };
        self.in_place = if self.pays { 0 } else { self.pause };
    }

    /// Learns how much the batch did that ran in place.
    pub(crate) fn did_in_place(&mut self, size: u64)
        ensures larger { self.new ≡ record self.old {
          in_place = (if nat_lt self.old.tried (size / 2) then 0 else self.old.in_place);
        } }
    {
        if size / 2 > self.tried {
            self.in_place = 0;
        }
    }

    /// Learns from a batch of so many jobs over so many workers, of which the first ran `own` jobs,
    /// and `came` others the rest.
    pub(crate) fn learn(&mut self, workers: u32, jobs: u32, own: u32, came: u32)
        ensures at_once { self.new.at_once
            ≡ (if nat_le (own + own) jobs && nat_le self.old.at_once (came + came)
            then max came 1 else 1) }
        ensures jobs { self.new ≡ record self.old {
          at_once = self.new.at_once;
          jobs = jobs;
          others = jobs - own;
          many = self.new.many;
        } }
        ensures many { 2 < workers → self.new.many
            ≡ (nat_lt own jobs && nat_le jobs (4 * (jobs - own))) }
        ensures many_of_two { workers ≤ 2 → self.new.many
            ≡ nat_le (max (jobs * 3 / 8) 1) (jobs - own) }
    {
        let others = jobs.saturating_sub(own);
        let is_short = own > jobs / 2 || came < self.at_once.div_ceil(2);
        self.at_once = if is_short { 1 } else { came.max(1) };
        let least = if workers > 2 {
            jobs.div_ceil(4)
        } else {
            (u64::from(jobs) * 3 / 8) as u32
        };
        self.jobs = jobs;
        self.others = others;
        self.many = others >= least.max(1);
    }
}
