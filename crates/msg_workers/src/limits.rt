// The limit of workers.
use msg_board::MAX_PASSES;

/// How many workers may run the jobs of a batch: each needs a pass.
pub const MAX_WORKERS: u32 = MAX_PASSES;
