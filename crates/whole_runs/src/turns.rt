ghost use Rattle.std.specs.Prelude.{◌≡◌, IfOk};
ghost use Rattle.job_model.specs.Nests.{end_state};
ghost use Rattle.job_model.specs.State.{State};
ghost use Rattle.term_model.specs.Activity.{Entries};
ghost use Rattle.whole_turns.specs.Turns.{CanTurn, IsHeld};
ghost use Rattle.whole_runs.specs.Engine.{ArePlannedNests, AreHeld, IsTurnedTo};

use bern_base::{Checked, Items, Nest, NoMemory, Steps};
use formats::AnyStore;
use placement::AnyPlace;
use split_exec::{Delta, apply, inner};
use std::alloc::Global;
use std::sync::ledger::Ledger;
use term_model::{PlannedTerm, Plans};

/// The stores after all turns, from those before the first.
pub(crate) fn run_turns<L: Ledger>(
    alloc: Global,
    job: &Checked,
    plans: &Plans,
    places: &Items<AnyPlace>,
    stores: Items<AnyStore>,
    steps: &mut Steps<L>,
) -> Result<Items<AnyStore>, NoMemory>
    requires held { AreHeld job.now places.now stores }
    requires plans { ArePlannedNests job.now plans.now }
    ensures { (entries : Entries) (state : State) → IsHeld job.now entries state places.now stores →
        IfOk result (IsHeld job.now entries (end_state job.now state) places.now) }
{
    let mut stores = stores;
    for number in job.turns.as_slice() {
        let number = *number as usize;
        let nest = job.nests.at(number);
        stores = turn(
            alloc,
            job,
            nest,
            plans.nests.at(number),
            places,
            stores,
            steps,
        )?;
    }
    Ok(stores)
}

/// The stores after a turn of a nest: the interior points of its terms add up, and the sums lead the target on.
fn turn<L: Ledger>(
    alloc: Global,
    job: &Checked,
    nest: &Nest,
    planned: &Items<PlannedTerm>,
    places: &Items<AnyPlace>,
    stores: Items<AnyStore>,
    steps: &mut Steps<L>,
) -> Result<Items<AnyStore>, NoMemory>
    requires { CanTurn job.now places.now nest.now planned.now stores }
    ensures { IfOk result (IsTurnedTo job.now places.now nest.now planned.now stores) }
{
    let target = nest.target.array as usize;
    let array = job.arrays.at(target);
    let mut delta = Delta::new(alloc, array.rows * array.cols)?;
    inner(job, nest, planned, 0, &stores, places, &mut delta, steps);
    let mut stores = stores.into_vec();
    apply(job, nest, 0, places, &delta, &mut stores[target]);
    Ok(Items::from_vec(stores))
}
