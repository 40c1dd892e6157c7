ghost use Rattle.std.specs.Prelude.{◌≡◌, ℕ, ◌+◌, List, [], ◌++◌, IsTrue, IfOk, IfSome, OnOk};
ghost use Rattle.bern_base.specs.Matrix.{IsMatrix};
ghost use Rattle.bern_ports.specs.Frames.{KeepsShelf, shelf_state};
ghost use Rattle.mm_profile.specs.Profile.{mm};
ghost use Rattle.mm_text.specs.Feeds.{StandsForBytes};
ghost use Rattle.job_files.specs.Answers.{HasFaultCause, IsNoFault, IsOf, LoadsMatrix, Stands, TakesAtMost};

use crate::load_error::{LoadError, fault_at, refusal};
use crate::reading::read_piece;
use bern_base::{MOST_FILE_BYTES, MOST_PIECE, Matrix, NoMemory, Text};
use bern_ports::{Failed, Shelf};
use mm_text::{FeedError, MatrixFeed, MmError};
use std::alloc::Global;

/// The matrix of a file, which is read piece by piece to its end, or to the first byte past its limit; no byte after that
/// one is taken.
pub fn load_matrix<F: Shelf>(alloc: Global, name: &Text, shelf: &mut F) -> Result<Matrix, LoadError>
    ensures keeps { KeepsShelf (shelf_state F.Shelf shelf.old) (shelf_state F.Shelf shelf.new) }
    ensures cause { HasFaultCause (shelf_state F.Shelf shelf.old) (shelf_state F.Shelf shelf.new) result }
    ensures matrix { IfOk result (λ m. IsMatrix m) }
    ensures told { IfSome (F.files shelf.old) (λ fs. LoadsMatrix fs name.now result) }
    ensures takes { IfSome (F.files shelf.old)
        (λ fs. IsTrue (F.begun shelf.new) → TakesAtMost (MOST_FILE_BYTES + 1) fs name.now (F.left shelf.new)) }
{
    match shelf.begin(name) {
        Ok(()) => feed_file(alloc, name, shelf),
        Err(Failed) => Err(fault_at(alloc, name)),
    }
}

/// Feeds the begun file from its start. A line that breaks a rule does not end the reading: a file that is too long is
/// refused for that before all.
fn feed_file<F: Shelf>(alloc: Global, name: &Text, shelf: &mut F) -> Result<Matrix, LoadError>
    requires begun { IsTrue (F.begun shelf.old) }
    requires start { IfSome (F.files shelf.old) (λ fs. Stands fs name.now [] (F.left shelf.old)) }
    requires current { IfSome (F.files shelf.old) (λ fs. F.current shelf.old ≡ name.now) }
    ensures keeps { KeepsShelf (shelf_state F.Shelf shelf.old) (shelf_state F.Shelf shelf.new) }
    ensures cause { HasFaultCause (shelf_state F.Shelf shelf.old) (shelf_state F.Shelf shelf.new) result }
    ensures matrix { IfOk result (λ m. IsMatrix m) }
    ensures told { IfSome (F.files shelf.old) (λ fs. LoadsMatrix fs name.now result) }
    ensures takes { IfSome (F.files shelf.old) (λ fs. TakesAtMost (MOST_FILE_BYTES + 1) fs name.now (F.left shelf.new)) }
{
    let mut feed = MatrixFeed::new(alloc);
    let mut piece = [0; MOST_PIECE];
    let mut left = MOST_FILE_BYTES + 1;
    'file: while left > 0 {
        match read_piece(shelf, &mut piece, left.min(MOST_PIECE)) {
            Ok(0) => return finished(alloc, name.as_bytes(), feed),
            Ok(count) => {
                match feed_piece(&mut feed, &piece[..count]) {
                    Ok(()) => {}
                    Err(NoMemory) => return Err(LoadError::NoMemory),
                }
                left -= count;
            }
            Err(Failed) => return Err(fault_at(alloc, name)),
        }
    }
    finished(alloc, name.as_bytes(), feed)
}

/// Feeds a piece. A file that is too long is refused once it is read.
fn feed_piece(feed: &mut MatrixFeed, piece: &[u8]) -> Result<(), NoMemory>
    ensures { OnOk result ((bytes : List ℕ) → StandsForBytes feed.old bytes → StandsForBytes feed.new (bytes ++ piece.now)) }
{
    match feed.feed(piece) {
        Ok(()) => Ok(()),
        Err(FeedError::TooLong) => Ok(()),
        Err(FeedError::NoMemory) => Err(NoMemory),
    }
}

/// What the file that was fed has.
fn finished(alloc: Global, name: &[u8], feed: MatrixFeed) -> Result<Matrix, LoadError>
    ensures matrix { IfOk result (λ m. IsMatrix m) }
    ensures calm { IsNoFault result }
    ensures is { (bytes : List ℕ) → StandsForBytes feed bytes → IsOf name.now (mm bytes) result }
{
    match feed.finish() {
        Ok(matrix) => Ok(matrix),
        Err(MmError::Broken { line, rule }) => Err(refusal(alloc, name, line, rule)),
        Err(MmError::NoMemory) => Err(LoadError::NoMemory),
    }
}
