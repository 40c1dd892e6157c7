ghost use Rattle.std.specs.Prelude.{◌≡◌, ◌≤◌, length, map};
ghost use Rattle.bern_base.specs.declared.limits.TheConstants.{MOST_WEIGHT};
ghost use Rattle.format_model.specs.Grids.{SameBranches};
ghost use Rattle.split_exec.specs.Applying.{CanApplyAt, HasSize, IsAdded, IsApplied};

use crate::boxes::write_box;
use crate::delta::Delta;
use access_joins::Cells;
use bern_base::{Checked, Items, Nest};
use placement::Placement;

/// Leads a rank's part of a nest's target from before the nest to after it, where `delta` has what the nest adds there.
///
/// It takes no memory. With `+=` each element that the rank owns grows by its sum. With `=` each element that some point of the nest
/// writes becomes its sum, also where no term is active; all others stay.
pub fn apply<P: Placement, D: Cells>(
    job: &Checked,
    nest: &Nest,
    rank: u32,
    places: &Items<P>,
    delta: &Delta,
    target: &mut D,
)
    requires { CanApplyAt P.triples P.ranks job.now places.now nest.now rank delta.now (D.grid target.old) }
    ensures applied { IsApplied job.now (map P.triples places.now) nest.now rank delta.now (D.grid target.old) (D.grid target.new) }
    ensures branches { SameBranches (D.tree target.old) (D.tree target.new) }
{
    if nest.replace {
        write_box(job, nest, rank, places, delta, target);
    } else {
        add_sums(delta, target);
    }
}

/// Adds each sum to its element.
fn add_sums<D: Cells>(delta: &Delta, target: &mut D)
    requires size { HasSize (D.grid target.old) (length delta.now) }
    requires few { length delta.now ≤ MOST_WEIGHT }
    ensures added { IsAdded (length delta.now) delta.now (D.grid target.old) (D.grid target.new) }
    ensures branches { SameBranches (D.tree target.old) (D.tree target.new) }
{
    let sums = delta.sums();
    'elements: for at in 0..sums.len() {
        let element = at as u32;
        let value = target.cell(element).add(sums[at]);
        target.set(element, value);
    }
}
