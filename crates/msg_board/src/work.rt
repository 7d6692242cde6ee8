//! What a board's jobs and results are.

/// A kind of work: `Job` is what a pass draws, and `Done` what it hands in as the result of a job.
pub trait Work {
    type Job: Send + Drop;

    type Done: Send + Drop;

    // `lawful job done`: `done` is an allowed result of `job`.
    ghost lawful: { Self.Job → Self.Done → Type 0 };
}
