ghost use Rattle.std.specs.Prelude.{◌≡◌, ℕ, ◌+◌, ◌≤◌, List, [], ◌++◌, Err, ◌↔◌, IsTrue, IsErrOf, IfOk};
ghost use Rattle.std.specs.Option.{ForSome};
ghost use Rattle.bern_base.specs.declared.limits.TheConstants.{MOST_FILE_BYTES};
ghost use Rattle.bern_base.specs.Matrix.{IsMatrix};
ghost use Rattle.mm_profile.specs.Profile.{is_too_long, mm};
ghost use Rattle.mm_text.specs.Stages.{Gives};

use crate::error::{FeedError, MmError};
use crate::reading::Reading;
use bern_base::{MOST_FILE_BYTES, Matrix, NoMemory};
use std::alloc::Global;

/// A reader that takes a file in pieces. It keeps no byte of it but those of a line that has not ended yet.
#[derive(Drop)]
pub struct MatrixFeed {
    /// How many bytes came, counted up to one more than a file may have.
    count: usize,
    /// How far the file is read; none once memory ran out.
    reading: Option<Reading>,
    ghost capped: { count ≤ MOST_FILE_BYTES + 1 },
    ghost numbered: { ForSome reading (λ r. r.number ≤ count + 1) },
}

impl MatrixFeed {
    ghost use Rattle.mm_text.specs.Feeds.{StandsForBytes, IsSpent, Feeds};

    /// A feed of which no byte came. It takes no memory.
    pub fn new(alloc: Global) -> MatrixFeed
        ensures { StandsForBytes result [] }
    {
        MatrixFeed {
            count: 0,
            reading: Some(Reading::new(alloc)),
        }
    }

    /// Takes the next piece of the file, and tries rule M12. After want of memory the feed is spent.
    pub fn feed(&mut self, piece: &[u8]) -> Result<(), FeedError>
        ensures feeds { Feeds self.old piece.now self.new result }
        ensures too_long { (bytes : List ℕ) → StandsForBytes self.old bytes →
            (IsErrOf result FeedError.TooLong ↔ IsTrue (is_too_long (bytes ++ piece.now))) }
        ensures spent { IsSpent self.old → result ≡ Err FeedError.NoMemory }
    {
        let Some(reading) = self.reading.take() else {
            return Err(FeedError::NoMemory);
        };
        let count = self.count;
        if count > MOST_FILE_BYTES || piece.len() > MOST_FILE_BYTES - count {
            self.count = MOST_FILE_BYTES + 1;
            self.reading = Some(reading.too_long());
            return Err(FeedError::TooLong);
        }
        match reading.take(piece) {
            Ok(reading) => {
                self.count = count + piece.len();
                self.reading = Some(reading);
                Ok(())
            }
            Err(NoMemory) => Err(FeedError::NoMemory),
        }
    }

    /// The matrix of the file that was fed, or its first refusal.
    pub fn finish(self) -> Result<Matrix, MmError>
        ensures read { (bytes : List ℕ) → StandsForBytes self bytes → Gives result (mm bytes) }
        ensures matrix { IfOk result (λ m. IsMatrix m) }
        ensures spent { IsSpent self → result ≡ Err MmError.NoMemory }
    {
        let MatrixFeed { reading, .. } = self;
        match reading {
            Some(reading) => reading.finish(),
            None => Err(MmError::NoMemory),
        }
    }
}

/// The matrix of a file, or its first refusal.
pub fn read_matrix(alloc: Global, bytes: &[u8]) -> Result<Matrix, MmError>
    ensures read { Gives result (mm bytes.now) }
    ensures matrix { IfOk result (λ m. IsMatrix m) }
{
    let mut feed = MatrixFeed::new(alloc);
    match feed.feed(bytes) {
        Ok(()) | Err(FeedError::TooLong) => feed.finish(),
        Err(FeedError::NoMemory) => Err(MmError::NoMemory),
    }
}
