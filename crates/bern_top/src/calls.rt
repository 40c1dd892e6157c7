ghost use Rattle.std.specs.Prelude.{◌≡◌, ◌≤◌, false, IfSome};
ghost use Rattle.bern_ports.specs.Frames.{KeepsShelf, shelf_state};
ghost use Rattle.job_files.specs.Answers.{HasFaultCause};
ghost use Rattle.bern_top.specs.Answers.{AnswersRequest};
ghost use Rattle.bern_top.specs.declared.requests.Command.{Command};
ghost use Rattle.bern_top.specs.Requests.{request};

use crate::texts::{plans_of_file, text_of_file};
use bern_base::{MOST_RANKS, Steps, Text};
use bern_ports::Shelf;
use job_files::LoadError;
use std::alloc::Global;
use std::sync::ledger::Ledger;

/// Runs the job of that file and answers the printed text of its arrays.
///
/// So far one rank holds all arrays, whatever the number of ranks is: each term of a nest is visited by its plan of least cost, and
/// `steps` counts what the visits take. `report` is false.
pub fn run_call<F: Shelf, L: Ledger>(
    alloc: Global,
    job: &Text,
    ranks: u32,
    report: bool,
    shelf: &mut F,
    steps: &mut Steps<L>,
) -> Result<Text, LoadError>
    requires some { 1 ≤ ranks }
    requires most { ranks ≤ MOST_RANKS }
    requires plain { report ≡ false }
    ensures keeps { KeepsShelf (shelf_state F.Shelf shelf.old) (shelf_state F.Shelf shelf.new) }
    ensures cause { HasFaultCause (shelf_state F.Shelf shelf.old) (shelf_state F.Shelf shelf.new) result }
    ensures told { IfSome (F.files shelf.old) (λ fs. AnswersRequest fs (request job.now (Command.Run ranks)) result) }
{
    text_of_file(alloc, job, ranks, None, shelf, steps)
}

/// The text of the plans of the job of that file: for each term of each nest, both from 1, the first join order of least cost
/// and this cost, from what is measured of the matrices that the job names.
///
/// It starts no ranks. The files of listed places are not read, since which rank has an index makes no plan another one.
pub fn plan_call<F: Shelf>(alloc: Global, job: &Text, shelf: &mut F) -> Result<Text, LoadError>
    ensures keeps { KeepsShelf (shelf_state F.Shelf shelf.old) (shelf_state F.Shelf shelf.new) }
    ensures cause { HasFaultCause (shelf_state F.Shelf shelf.old) (shelf_state F.Shelf shelf.new) result }
    ensures told { IfSome (F.files shelf.old) (λ fs. AnswersRequest fs (request job.now Command.Plan) result) }
{
    plans_of_file(alloc, job, shelf)
}

/// Runs the job of that file, a product of a sparse matrix and a vector, by its ranks in an order of events that the seed
/// chooses, and answers the printed text of its arrays and the number of events.
///
/// Nothing is counted in `steps`.
pub fn replay_call<F: Shelf, L: Ledger>(
    alloc: Global,
    job: &Text,
    ranks: u32,
    seed: u64,
    shelf: &mut F,
    steps: &mut Steps<L>,
) -> Result<Text, LoadError>
    requires some { 1 ≤ ranks }
    requires most { ranks ≤ MOST_RANKS }
    ensures keeps { KeepsShelf (shelf_state F.Shelf shelf.old) (shelf_state F.Shelf shelf.new) }
    ensures cause { HasFaultCause (shelf_state F.Shelf shelf.old) (shelf_state F.Shelf shelf.new) result }
    ensures told { IfSome (F.files shelf.old) (λ fs. AnswersRequest fs (request job.now (Command.Replay ranks seed)) result) }
{
    text_of_file(alloc, job, ranks, Some(seed), shelf, steps)
}
