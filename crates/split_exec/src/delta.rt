ghost use Rattle.std.specs.Prelude.{◌≡◌, ◌+◌, ◌<◌, ◌≤◌, ◌^◌, IfOk, All, length, replicate, slice_index, slice_set};
ghost use Rattle.bern_base.specs.Ring.{ring_add};

use bern_base::{Items, NoMemory, Val};
use std::alloc::Global;
use std::marker::Model;

/// What a nest adds to each element of its target that a rank owns: one sum for each, by the element's number in the rank's part.
/// Contracts see it as the list of the sums.
#[derive(Debug, Drop)]
pub struct Delta {
    sums: Items<Val>,
}

impl Model for Delta {
    ghost use Rattle.std.specs.Prelude.{List, ℕ, ◌<◌, ◌^◌, All};

    ghost Value = { List ℕ };

    ghost view = { λ d. d.sums };

    ghost invariant = { λ d. All (λ v. v < 2 ^ 64) d.sums };
}

impl Delta {
    /// So many sums, each 0.
    pub fn new(alloc: Global, count: u32) -> Result<Delta, NoMemory>
        ensures { IfOk result (λ delta. delta ≡ replicate count 0) }
    {
        let sums = vec![in alloc; Val::new(0); count as usize]?;
        Ok(Delta {
            sums: Items::from_vec(sums),
        })
    }

    /// The sums, by the numbers of the elements.
    pub fn sums(&self) -> &[Val]
        ensures { result.now ≡ self.now }
    {
        self.sums.as_slice()
    }

    /// The sums are values.
    pub(crate) fn small(&self)
        ensures { All (λ v. v < 2 ^ 64) self.now }
    {
        let _count = self.sums.len();
    }

    /// Adds a value to a sum.
    pub(crate) fn add(&mut self, element: u32, value: Val)
        requires { element < length self.old }
        ensures { self.new ≡ slice_set self.old element (ring_add (slice_index self.old element) value) }
    {
        let at = element as usize;
        self.sums.set(at, self.sums.at(at).add(value));
    }
}
