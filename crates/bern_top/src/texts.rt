ghost use Rattle.std.specs.Prelude.{◌≤◌, IfOk, IfSome};
ghost use Rattle.std.specs.List.{All};
ghost use Rattle.bern_base.specs.Matrix.{IsMatrix};
ghost use Rattle.bern_ports.specs.Frames.{KeepsShelf, shelf_state};
ghost use Rattle.job_accept.specs.Axes.{HasOuterAxis};
ghost use Rattle.job_files.specs.Answers.{HasFaultCause};
ghost use Rattle.job_model.specs.Accepted.{IsAccepted};
ghost use Rattle.job_plans.specs.Laws.{IsPlannable};
ghost use Rattle.rank_product.specs.Shapes.{IsProduct};
ghost use Rattle.whole_runs.specs.Engine.{IsFormed};
ghost use Rattle.bern_top.specs.Answers.{AnswersBytes, AnswersJob, AnswersRequest, IsJobRefusal};
ghost use Rattle.bern_top.specs.Endings.{IsTextOfPlans};
ghost use Rattle.bern_top.specs.declared.requests.Command.{Command};
ghost use Rattle.bern_top.specs.Requests.{request, running};

use bern_base::{Checked, Items, MOST_JOB_BYTES, MOST_RANKS, Matrix, NoMemory, Rule, Steps, Text};
use bern_ports::Shelf;
use job_accept::{take_job, too_long};
use job_files::{LoadError, load_arrays, load_arrays_to_plan, read_file, refusal};
use job_plans::{measured, plans};
use job_rules::CheckError;
use job_runs::{replay_text, run_text};
use join_plan::plan_text;
use rank_product::{ProductShape, product_shape};
use std::alloc::Global;
use std::sync::ledger::Ledger;

/// The text of the job of that file, of a run, or with a seed of a replay. The job is read whole; what it mentions is read after it.
pub(crate) fn text_of_file<F: Shelf, L: Ledger>(
    alloc: Global,
    name: &Text,
    ranks: u32,
    seed: Option<u64>,
    shelf: &mut F,
    steps: &mut Steps<L>,
) -> Result<Text, LoadError>
    requires some { 1 ≤ ranks }
    requires most { ranks ≤ MOST_RANKS }
    ensures keeps { KeepsShelf (shelf_state F.Shelf shelf.old) (shelf_state F.Shelf shelf.new) }
    ensures cause { HasFaultCause (shelf_state F.Shelf shelf.old) (shelf_state F.Shelf shelf.new) result }
    ensures told { IfSome (F.files shelf.old) (λ fs. AnswersRequest fs (request name.now (running ranks seed)) result) }
{
    match read_file(alloc, name, MOST_JOB_BYTES, shelf) {
        Ok(Some(bytes)) => text_of_bytes(alloc, name, bytes.as_bytes(), ranks, seed, shelf, steps),
        Ok(None) => Err(no_job(alloc, name, too_long())),
        Err(fault) => Err(fault),
    }
}

/// The text of the job of these bytes.
fn text_of_bytes<F: Shelf, L: Ledger>(
    alloc: Global,
    name: &Text,
    bytes: &[u8],
    ranks: u32,
    seed: Option<u64>,
    shelf: &mut F,
    steps: &mut Steps<L>,
) -> Result<Text, LoadError>
    requires some { 1 ≤ ranks }
    requires most { ranks ≤ MOST_RANKS }
    ensures keeps { KeepsShelf (shelf_state F.Shelf shelf.old) (shelf_state F.Shelf shelf.new) }
    ensures cause { HasFaultCause (shelf_state F.Shelf shelf.old) (shelf_state F.Shelf shelf.new) result }
    ensures told { IfSome (F.files shelf.old) (λ fs. AnswersBytes fs (request name.now (running ranks seed)) bytes.now result) }
{
    match take_job(alloc, bytes) {
        Ok(job) => text_of_job(alloc, name, &job, ranks, seed, shelf, steps),
        Err(refused) => Err(no_job(alloc, name, refused)),
    }
}

/// The text of the plans of the job of that file. The job is read whole; what it mentions is read after it.
pub(crate) fn plans_of_file<F: Shelf>(
    alloc: Global,
    name: &Text,
    shelf: &mut F,
) -> Result<Text, LoadError>
    ensures keeps { KeepsShelf (shelf_state F.Shelf shelf.old) (shelf_state F.Shelf shelf.new) }
    ensures cause { HasFaultCause (shelf_state F.Shelf shelf.old) (shelf_state F.Shelf shelf.new) result }
    ensures told { IfSome (F.files shelf.old) (λ fs. AnswersRequest fs (request name.now Command.Plan) result) }
{
    match read_file(alloc, name, MOST_JOB_BYTES, shelf) {
        Ok(Some(bytes)) => plans_of_bytes(alloc, name, bytes.as_bytes(), shelf),
        Ok(None) => Err(no_job(alloc, name, too_long())),
        Err(fault) => Err(fault),
    }
}

/// The text of the plans of the job of these bytes.
fn plans_of_bytes<F: Shelf>(
    alloc: Global,
    name: &Text,
    bytes: &[u8],
    shelf: &mut F,
) -> Result<Text, LoadError>
    ensures keeps { KeepsShelf (shelf_state F.Shelf shelf.old) (shelf_state F.Shelf shelf.new) }
    ensures cause { HasFaultCause (shelf_state F.Shelf shelf.old) (shelf_state F.Shelf shelf.new) result }
    ensures told { IfSome (F.files shelf.old) (λ fs. AnswersBytes fs (request name.now Command.Plan) bytes.now result) }
{
    match take_job(alloc, bytes) {
        Ok(job) => text_of_plan(alloc, name, &job, shelf),
        Err(refused) => Err(no_job(alloc, name, refused)),
    }
}

/// Why the job file gives no job.
fn no_job(alloc: Global, name: &Text, refused: CheckError) -> LoadError
    ensures { IsJobRefusal name.now refused result }
{
    match refused {
        CheckError::Refused { line, rule } => refusal(alloc, name.as_bytes(), line, rule),
        CheckError::NoMemory => LoadError::NoMemory,
    }
}

/// The text of an accepted job: of a run, or of a replay of one product.
fn text_of_job<F: Shelf, L: Ledger>(
    alloc: Global,
    name: &Text,
    job: &Checked,
    ranks: u32,
    seed: Option<u64>,
    shelf: &mut F,
    steps: &mut Steps<L>,
) -> Result<Text, LoadError>
    requires some { 1 ≤ ranks }
    requires most { ranks ≤ MOST_RANKS }
    requires accepted { IsAccepted job.now }
    requires formed { IsFormed job.now }
    ensures keeps { KeepsShelf (shelf_state F.Shelf shelf.old) (shelf_state F.Shelf shelf.new) }
    ensures cause { HasFaultCause (shelf_state F.Shelf shelf.old) (shelf_state F.Shelf shelf.new) result }
    ensures told { IfSome (F.files shelf.old) (λ fs. AnswersJob fs (request name.now (running ranks seed)) job.now result) }
{
    match seed {
        None => text_of_run(alloc, name, job, ranks, shelf, steps),
        Some(seed) => match product_shape(job) {
            Some(product) => text_of_replay(alloc, name, job, product, ranks, seed, shelf),
            None => Err(refusal(alloc, name.as_bytes(), 0, Rule::U2)),
        },
    }
}

/// The text of a run of the job's turns.
fn text_of_run<F: Shelf, L: Ledger>(
    alloc: Global,
    name: &Text,
    job: &Checked,
    ranks: u32,
    shelf: &mut F,
    steps: &mut Steps<L>,
) -> Result<Text, LoadError>
    requires some { 1 ≤ ranks }
    requires accepted { IsAccepted job.now }
    requires formed { IsFormed job.now }
    ensures keeps { KeepsShelf (shelf_state F.Shelf shelf.old) (shelf_state F.Shelf shelf.new) }
    ensures cause { HasFaultCause (shelf_state F.Shelf shelf.old) (shelf_state F.Shelf shelf.new) result }
    ensures told { IfSome (F.files shelf.old) (λ fs. AnswersJob fs (request name.now (Command.Run ranks)) job.now result) }
{
    match load_arrays(alloc, name, job, ranks, shelf) {
        Ok(files) => match run_text(alloc, job, files.matrices, &files.orders, steps) {
            Ok(text) => Ok(text),
            Err(_) => Err(LoadError::NoMemory),
        },
        Err(fault) => Err(fault),
    }
}

/// The text of the plans of the job's terms.
fn text_of_plan<F: Shelf>(
    alloc: Global,
    name: &Text,
    job: &Checked,
    shelf: &mut F,
) -> Result<Text, LoadError>
    requires accepted { IsAccepted job.now }
    requires axes { All (λ format. HasOuterAxis format.shape) job.now.formats }
    ensures keeps { KeepsShelf (shelf_state F.Shelf shelf.old) (shelf_state F.Shelf shelf.new) }
    ensures cause { HasFaultCause (shelf_state F.Shelf shelf.old) (shelf_state F.Shelf shelf.new) result }
    ensures told { IfSome (F.files shelf.old) (λ fs. AnswersJob fs (request name.now Command.Plan) job.now result) }
{
    match load_arrays_to_plan(alloc, name, job, shelf) {
        Ok(matrices) => match text_of_plans(alloc, job, &matrices) {
            Ok(text) => Ok(text),
            Err(_) => Err(LoadError::NoMemory),
        },
        Err(fault) => Err(fault),
    }
}

/// The text of the plans of least cost, by what is measured of the matrices.
fn text_of_plans(alloc: Global, job: &Checked, matrices: &Items<Matrix>) -> Result<Text, NoMemory>
    requires can { IsPlannable job.now matrices.now }
    requires matrices { All IsMatrix matrices.now }
    ensures { IfOk result (IsTextOfPlans job.now matrices.now) }
{
    let stats = measured(alloc, job, matrices)?;
    let plans = plans(alloc, job, &stats)?;
    plan_text(alloc, job, &plans)
}

/// The text of a replay of the job's product.
fn text_of_replay<F: Shelf>(
    alloc: Global,
    name: &Text,
    job: &Checked,
    product: ProductShape,
    ranks: u32,
    seed: u64,
    shelf: &mut F,
) -> Result<Text, LoadError>
    requires some { 1 ≤ ranks }
    requires most { ranks ≤ MOST_RANKS }
    requires accepted { IsAccepted job.now }
    requires product { IsProduct job.now product }
    ensures keeps { KeepsShelf (shelf_state F.Shelf shelf.old) (shelf_state F.Shelf shelf.new) }
    ensures cause { HasFaultCause (shelf_state F.Shelf shelf.old) (shelf_state F.Shelf shelf.new) result }
    ensures told { IfSome (F.files shelf.old) (λ fs. AnswersJob fs (request name.now (Command.Replay ranks seed)) job.now result) }
{
    match load_arrays(alloc, name, job, ranks, shelf) {
        Ok(files) => match replay_text(alloc, job, product, ranks, seed, files.matrices) {
            Ok(text) => Ok(text),
            Err(_) => Err(LoadError::NoMemory),
        },
        Err(fault) => Err(fault),
    }
}
