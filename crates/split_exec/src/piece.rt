ghost use Rattle.std.specs.Prelude.{◌≡◌, ◌<◌, length};
ghost use Rattle.split_exec.specs.Runs.{GrowWith, held_at};

use crate::delta::Delta;
use bern_base::Val;

/// A value that is to be added to the sum of one element.
#[derive(Clone, Copy, Debug, PartialEq, Eq)]
pub(crate) struct Piece {
    pub element: u32,
    pub value: Val,
}

impl Piece {
    /// Joins the next piece to this one where both are for one element; else this one is added to its sum, and the next one held.
    #[inline(always)]
    pub(crate) fn then(self, next: Piece, delta: &mut Delta) -> Piece
        requires sum { self.element < length delta.old }
        requires next { next.element < length delta.old }
        ensures { GrowWith delta.old self delta.new result (held_at next) }
    {
        if self.element == next.element {
            return Piece {
                element: self.element,
                value: self.value.add(next.value),
            };
        }
        delta.add(self.element, self.value);
        next
    }
}
