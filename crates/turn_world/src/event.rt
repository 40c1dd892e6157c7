use thiserror::Error;

/// What may happen in a world: a rank does its work, posts its letter, or takes the oldest letter in flight from another.
#[derive(Clone, Copy, Debug, PartialEq, Eq)]
pub enum Event {
    Work { rank: u32 },
    Post { rank: u32 },
    Take { rank: u32, from: u32 },
}

/// Why a step was refused. The world is as before.
#[derive(Debug, Drop, Error)]
pub enum StepError {
    #[error("the event is not enabled")]
    NotEnabled,
    #[error("out of memory")]
    NoMemory,
}
