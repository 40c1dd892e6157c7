ghost use Rattle.std.specs.Prelude.{◌≡◌, IfOk};
ghost use Rattle.job_model.specs.Accepted.{IsAccepted};
ghost use Rattle.whole_turns.specs.OneRank.{AreWhole};

use bern_base::{Checked, Items, NoMemory};
use placement::{AnyPlace, Cyclic};
use std::alloc::Global;

/// A place for each place line, which gives all indices to one rank.
pub fn whole_places(alloc: Global, job: &Checked) -> Result<Items<AnyPlace>, NoMemory>
    requires { IsAccepted job.now }
    ensures { IfOk result (AreWhole job.now) }
{
    let mut places = Items::new(alloc);
    for line in job.places.as_slice() {
        let size = job.extents.at(line.extent as usize).size;
        places.push(AnyPlace::Cyclic(Cyclic::new(size, 1, size)))?;
    }
    Ok(places)
}
