ghost use Rattle.std.specs.Prelude.{◌≡◌, ◌+◌, ◌<◌, ◌≤◌, length};
ghost use Rattle.std.specs.List.{All, sum_by};
ghost use Rattle.split_exec.specs.Hits.{Grow};
ghost use Rattle.split_exec.specs.Passing.{HasSums};
ghost use Rattle.split_exec.specs.Recalling.{AddsBoundary, CanRecall};
ghost use Rattle.split_exec.specs.Recorded.{CanRead, records_add, source};
ghost use Rattle.split_exec.specs.Settings.{setting};

use crate::delta::Delta;
use crate::inbox::Inbox;
use crate::records::add_record;
use access_joins::Cells;
use bern_base::{Checked, Items, Nest, Steps};
use node_prog::Recorded;
use placement::Placement;
use std::sync::ledger::Ledger;
use term_model::PlannedTerm;

/// Adds the value of each term, at each of its boundary points at a rank, to the sum of the point's target element.
///
/// It takes no memory and makes no visit: it goes over the records of these points, one list for each term. `stores` has one view per
/// array, by its number, of the rank's part of it, and `places` one place per place line; `inbox` has the receive sets to which the
/// records lead, and `delta` one sum for each element of the target that the rank owns.
pub fn outer<V: Cells, P: Placement, L: Ledger>(
    job: &Checked,
    nest: &Nest,
    planned: &Items<PlannedTerm>,
    recorded: &Items<Items<Recorded>>,
    rank: u32,
    stores: &Items<V>,
    places: &Items<P>,
    inbox: &Inbox,
    delta: &mut Delta,
    steps: &mut Steps<L>,
)
    requires can { let s = setting P.triples P.ranks V.tree V.grid job.now places.now nest.now stores.now in
        CanRecall s rank planned.now recorded.now inbox.now.sets }
    requires sums { let s = setting P.triples P.ranks V.tree V.grid job.now places.now nest.now stores.now in
        HasSums s rank (length delta.old) }
    ensures sums { let s = setting P.triples P.ranks V.tree V.grid job.now places.now nest.now stores.now in
        AddsBoundary s rank planned.now inbox.now.sets delta.old delta.new }
    ensures count { length delta.new ≡ length delta.old }
    ensures cost { steps.new ≤ steps.old + sum_by length recorded.now }
{
    'terms: for at in 0..planned.len() {
        let records = recorded.at(at);
        add_records(planned.at(at), records, stores, inbox, delta, steps);
    }
    delta.small();
}

/// Adds the values of a term at its recorded points.
fn add_records<V: Cells, L: Ledger>(
    planned: &PlannedTerm,
    records: &Items<Recorded>,
    stores: &Items<V>,
    inbox: &Inbox,
    delta: &mut Delta,
    steps: &mut Steps<L>,
)
    requires can { let f = source V.tree V.grid stores.now inbox.now.sets in All (CanRead f planned.now.term) records.now }
    requires targets { All (λ r. r.target < length delta.old) records.now }
    ensures grows { let f = source V.tree V.grid stores.now inbox.now.sets in
        Grow delta.old delta.new (records_add f planned.now.term records.now) }
    ensures cost { steps.new ≡ steps.old + length records.now }
{
    'records: for at in 0..records.len() {
        steps.tick();
        add_record(planned, records.at(at), stores, inbox, delta);
    }
}
