ghost use Rattle.std.specs.Prelude.{◌≡◌, ◌+◌, ◌^◌, ◌<◌, ◌≤◌, [], length, IsTrue, IsOk, IfOk, IfSome};
ghost use Rattle.std.specs.Io.KnownBytes.{ReadConsumes};
ghost use Rattle.bern_ports.specs.Causes.{HasCause};
ghost use Rattle.bern_ports.specs.Files.{BlamesOnly};
ghost use Rattle.bern_ports.specs.Frames.{KeepsShelf, shelf_state};
ghost use Rattle.job_files.specs.Answers.{HasFaultCause, ReadsWhole, Stands, TakesAtMost};

use crate::load_error::{LoadError, fault_at};
use bern_base::{MOST_PIECE, Text};
use bern_ports::{Failed, Shelf};
use std::alloc::Global;

/// The bytes of a file, or nothing where it has more than `limit`. No byte after the first one past the limit is taken.
pub fn read_file<F: Shelf>(
    alloc: Global,
    name: &Text,
    limit: usize,
    shelf: &mut F,
) -> Result<Option<Text>, LoadError>
    requires { limit < 2 ^ 32 }
    ensures keeps { KeepsShelf (shelf_state F.Shelf shelf.old) (shelf_state F.Shelf shelf.new) }
    ensures cause { HasFaultCause (shelf_state F.Shelf shelf.old) (shelf_state F.Shelf shelf.new) result }
    ensures short { IfOk result (λ o. IfSome o (λ bytes. length bytes ≤ limit)) }
    ensures told { IfSome (F.files shelf.old) (λ fs. ReadsWhole fs name.now limit result) }
    ensures takes { IfSome (F.files shelf.old) (λ fs.
        IsTrue (F.begun shelf.new) → TakesAtMost (limit + 1) fs name.now (F.left shelf.new)) }
{
    match shelf.begin(name) {
        Ok(()) => read_on(alloc, name, limit, shelf),
        Err(Failed) => Err(fault_at(alloc, name)),
    }
}

/// Reads at most so many bytes into the front of `piece`.
pub fn read_piece<F: Shelf>(shelf: &mut F, piece: &mut [u8], most: usize) -> Result<usize, Failed>
    requires begun { IsTrue (F.begun shelf.old) }
    requires some { 0 < most }
    requires room { most ≤ length piece.old }
    ensures keeps { KeepsShelf (shelf_state F.Shelf shelf.old) (shelf_state F.Shelf shelf.new) }
    ensures begun { IsTrue (F.begun shelf.new) }
    ensures current { F.current shelf.new ≡ F.current shelf.old }
    ensures blame { BlamesOnly (F.files shelf.old) (F.current shelf.old) (F.faults_on shelf.old) (F.faults_on shelf.new) result }
    ensures bound { IfOk result (λ n. n ≤ most) }
    ensures bytes { ReadConsumes (F.left shelf.old) (F.left shelf.new) result piece.new }
    ensures cause { HasCause (F.faults shelf.old) (F.faults shelf.new) result }
    ensures succeeds { IsTrue (F.sure shelf.old) → IsOk result }
{
    shelf.read(&mut piece[..most])
}

/// Reads the begun file from its start.
fn read_on<F: Shelf>(
    alloc: Global,
    name: &Text,
    limit: usize,
    shelf: &mut F,
) -> Result<Option<Text>, LoadError>
    requires small { limit < 2 ^ 32 }
    requires begun { IsTrue (F.begun shelf.old) }
    requires start { IfSome (F.files shelf.old) (λ fs. Stands fs name.now [] (F.left shelf.old)) }
    requires current { IfSome (F.files shelf.old) (λ fs. F.current shelf.old ≡ name.now) }
    ensures keeps { KeepsShelf (shelf_state F.Shelf shelf.old) (shelf_state F.Shelf shelf.new) }
    ensures cause { HasFaultCause (shelf_state F.Shelf shelf.old) (shelf_state F.Shelf shelf.new) result }
    ensures short { IfOk result (λ o. IfSome o (λ bytes. length bytes ≤ limit)) }
    ensures told { IfSome (F.files shelf.old) (λ fs. ReadsWhole fs name.now limit result) }
    ensures takes { IfSome (F.files shelf.old) (λ fs. TakesAtMost (limit + 1) fs name.now (F.left shelf.new)) }
{
    let mut bytes = Text::new(alloc);
    let mut piece = [0; MOST_PIECE];
    'file: while bytes.len() <= limit {
        let most = (limit + 1 - bytes.len()).min(MOST_PIECE);
        match read_piece(shelf, &mut piece, most) {
            Ok(0) => return Ok(Some(bytes)),
            Ok(count) => {
                if bytes.append(&piece[..count]).is_err() {
                    return Err(LoadError::NoMemory);
                }
            }
            Err(Failed) => return Err(fault_at(alloc, name)),
        }
    }
    Ok(None)
}
