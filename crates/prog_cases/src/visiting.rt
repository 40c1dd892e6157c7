ghost use Rattle.node_prog.specs.Visiting.{CanStart, scene};
ghost use Rattle.prog_cases.specs.Settings.{CanGoAlong};

use access_joins::Access;
use bern_base::{Checked, Items, Nest, NoMemory, Steps};
use node_prog::{RunLine, Visit};
use placement::Placement;
use std::alloc::Global;
use std::sync::ledger::Ledger;
use term_model::PlannedTerm;
use visits::{Got, OpenLoop, drive_in};
use walks::Hit;

/// The hits of a planned term at a rank, by `next`.
pub(crate) fn hits<V: Access, P: Placement, L: Ledger>(
    alloc: Global,
    job: &Checked,
    nest: &Nest,
    planned: &PlannedTerm,
    rank: u32,
    stores: &Items<V>,
    places: &Items<P>,
    steps: &mut Steps<L>,
) -> Result<Vec<Hit>, NoMemory>
    requires { let s = scene P.triples P.ranks V.tree job.now places.now nest.now planned.now stores.now in
        CanStart s rank }
{
    let mut hits = Vec::new(alloc);
    let mut visit = Visit::new(job, nest, planned, rank, stores, places, steps);
    'hits: while let Some(hit) = visit.next(job, nest, planned, stores, places, steps) {
        hits.push(hit)?;
    }
    Ok(hits)
}

/// The same, a run at a time; nothing where the runs of the plan are no lines whose bindings are hits.
pub(crate) fn hits_by_runs<V: Access, P: Placement, L: Ledger>(
    alloc: Global,
    job: &Checked,
    nest: &Nest,
    planned: &PlannedTerm,
    rank: u32,
    stores: &Items<V>,
    places: &Items<P>,
    steps: &mut Steps<L>,
) -> Result<Option<Vec<Hit>>, NoMemory>
    requires { let s = scene P.triples P.ranks V.tree job.now places.now nest.now planned.now stores.now in
        CanStart s rank }
{
    let mut hits = Vec::new(alloc);
    let mut visit = Visit::new(job, nest, planned, rank, stores, places, steps);
    let Some(line) = visit.line(job, nest, planned, stores, places) else {
        return Ok(None);
    };
    let Some(reference) = planned.term.sparse.get(line.reference as usize) else {
        return Ok(None);
    };
    let Some(view) = stores.get(reference.array as usize) else {
        return Ok(None);
    };
    'runs: while visit.advance_run(job, nest, planned, stores, places, steps) {
        add_run(&mut hits, visit.run(), line, view)?;
    }
    Ok(Some(hits))
}

/// Appends the bindings of a run.
fn add_run<V: Access>(
    hits: &mut Vec<Hit>,
    run: &OpenLoop,
    line: RunLine,
    view: &V,
) -> Result<(), NoMemory>
    requires { CanGoAlong (V.tree view.now) line run.now }
{
    let node = run.hit.leaves[line.reference as usize];
    for place in run.place..run.end {
        let (index, child) = view.entry(line.level, node, run.from, place);
        let mut hit = run.hit;
        if drive_in(run, &mut hit, line.reference, child, line.var, index) == Got::Found {
            hits.push(hit)?;
        }
    }
    Ok(())
}
