ghost use Rattle.std.specs.Prelude.{IfOk};
ghost use Rattle.job_model.specs.Nests.{end_state};
ghost use Rattle.whole_laws.specs.HeldArrays.{HoldsState};
ghost use Rattle.whole_runs.specs.Engine.{CanRun, entries_in, first_state};

use crate::places::whole_places;
use crate::stores::whole_stores;
use crate::turns::run_turns;
use bern_base::{Checked, Items, Matrix, NoMemory, Steps};
use formats::AnyStore;
use job_plans::{measured, plans};
use std::alloc::Global;
use std::sync::ledger::Ledger;

/// Runs the turns of a job in order: the stores of its arrays after the last one. `orders` has the order of its rows for each array
/// whose format names one.
///
/// Each array is built whole in its format, and its matrix is given up as soon as its store stands; each term of a nest is visited
/// by its plan of least cost.
pub fn run_whole<L: Ledger>(
    alloc: Global,
    job: &Checked,
    matrices: Items<Matrix>,
    orders: &Items<Items<u32>>,
    steps: &mut Steps<L>,
) -> Result<Items<AnyStore>, NoMemory>
    requires { CanRun job.now matrices orders.now }
    ensures { IfOk result (HoldsState job.now (entries_in matrices) (end_state job.now (first_state matrices))) }
{
    let places = whole_places(alloc, job)?;
    let stats = measured(alloc, job, &matrices)?;
    let plans = plans(alloc, job, &stats)?;
    let stores = whole_stores(alloc, job, matrices, orders)?;
    run_turns(alloc, job, &plans, &places, stores, steps)
}
