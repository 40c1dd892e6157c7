ghost use Rattle.std.specs.Prelude.{◌≡◌, ◌≤◌, IfOk};
ghost use Rattle.job_model.specs.Accepted.{IsAccepted};
ghost use Rattle.rank_product.specs.Runs.{AreOfJob};
ghost use Rattle.rank_product.specs.Shapes.{IsProduct};
ghost use Rattle.whole_runs.specs.Engine.{CanRun};
ghost use Rattle.job_runs.specs.Texts.{text_of_replay, text_of_run};

use crate::events::write_events;
use crate::printing::{print_replayed, print_stores};
use bern_base::{Checked, Items, MOST_RANKS, Matrix, NoMemory, Steps, Text};
use rank_product::{ProductShape, product_on_ranks};
use std::alloc::Global;
use std::sync::ledger::Ledger;
use whole_runs::run_whole;

/// Runs the turns of a job in order and prints the arrays of its print lines. `orders` has the order of its rows for each array
/// whose format names one.
///
/// Each array is built whole in its format, and each term of a nest is visited by its plan of least cost.
pub fn run_text<L: Ledger>(
    alloc: Global,
    job: &Checked,
    matrices: Items<Matrix>,
    orders: &Items<Items<u32>>,
    steps: &mut Steps<L>,
) -> Result<Text, NoMemory>
    requires { CanRun job.now matrices orders.now }
    ensures { IfOk result (λ text. text ≡ text_of_run job.now matrices) }
{
    let stores = run_whole(alloc, job, matrices, orders, steps)?;
    print_stores(alloc, job, &stores)
}

/// Runs a job of one product on so many ranks, in an order of events that the seed chooses, and prints the arrays of its
/// print lines and the number of events. The text does not depend on the seed.
pub fn replay_text(
    alloc: Global,
    job: &Checked,
    product: ProductShape,
    ranks: u32,
    seed: u64,
    matrices: Items<Matrix>,
) -> Result<Text, NoMemory>
    requires product { IsProduct job.now product }
    requires accepted { IsAccepted job.now }
    requires matrices { AreOfJob job.now matrices }
    requires some { 1 ≤ ranks }
    requires most { ranks ≤ MOST_RANKS }
    ensures { IfOk result (λ text. text ≡ text_of_replay ranks job.now product matrices) }
{
    let (values, events) = product_on_ranks(alloc, job, product, ranks, seed, &matrices)?;
    let mut text = print_replayed(alloc, job, product, &values, &matrices)?;
    write_events(events, &mut text)?;
    Ok(text)
}
