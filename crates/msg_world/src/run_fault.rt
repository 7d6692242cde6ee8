use thiserror::Error;

/// Why a frame wasn't run, or why there are no accounts.
#[derive(Clone, Copy, Debug, PartialEq, Eq, Error)]
pub enum RunFault {
    /// A frame ended for want of memory before.
    #[error("the engine is spoiled")]
    Spoiled,
    /// A frame was to be replayed in an order that isn't lawful for it.
    #[error("the order isn't lawful")]
    BadOrder,
    /// There was no memory for the frame, which spoils the engine, or for the accounts.
    #[error("want of memory")]
    NoMemory,
}
