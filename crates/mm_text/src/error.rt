use bern_base::{MOST_FILE_BYTES, Rule};
use thiserror::Error;

/// Why a file has no matrix.
#[derive(Clone, Copy, Debug, PartialEq, Eq, Error)]
pub enum MmError {
    /// The first rule that the file breaks, and at which line: from 1, or 0 for the file as a whole.
    #[error("line {line} breaks rule {rule:?}")]
    Broken { line: u64, rule: Rule },
    #[error("out of memory")]
    NoMemory,
}

/// Why a feed did not take a piece.
#[derive(Clone, Copy, Debug, PartialEq, Eq, Error)]
pub enum FeedError {
    #[error("the file has more than {} bytes", MOST_FILE_BYTES)]
    TooLong,
    #[error("out of memory")]
    NoMemory,
}

/// Why a line was not taken.
pub(crate) enum LineError {
    Broken(Rule),
    NoMemory,
}
