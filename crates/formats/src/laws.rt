//! Laws of stores of any format. Each function does nothing: its contract is the law.

ghost use Rattle.std.specs.Prelude.{◌≡◌, ℕ, List, Bool};
ghost use Rattle.bern_base.specs.declared.axes.Axis.{Axis};
ghost use Rattle.bern_base.specs.declared.matrix.Matrix.{Matrix};
ghost use Rattle.format_model.specs.Trees.{Describes};
ghost use Rattle.formats.specs.Admitted.{PartsCanBeBuilt, PartsCanBeViewed};
ghost use Rattle.local_views.specs.Views.{IsReached};
ghost use Rattle.stores_flat.specs.Changes.{SetsElement};
ghost use Rattle.stores_flat.specs.Dense.{dense_shape};

use crate::any_store::AnyStore;
use access_joins::{Access, Cells};

/// After `set` a store that had the elements of a part describes the part with that one changed.
pub fn a_set_store_describes_the_changed_part()
    ensures { (s t : AnyStore) (single : Bool) (outer : Axis) (old new : Matrix) (element value : ℕ) →
        SetsElement (⟦<AnyStore as Cells>⟧.grid s) (⟦<AnyStore as Cells>⟧.grid t) single outer old new element value →
        (globals order : List ℕ) → Describes (⟦<AnyStore as Access>⟧.tree t) (dense_shape single outer) globals order new }
{}

/// What the rules of a job and the checks of its files let through, `build` can take: the part of each rank.
pub fn admitted_parts_can_be_built()
    ensures { PartsCanBeBuilt }
{}

/// In a store of any format each line hangs below the root, so that the store of a part can be seen in the indices of the array.
pub fn lines_hang_below_the_root()
    ensures { (s : AnyStore) → IsReached (⟦<AnyStore as Access>⟧.tree s) }
{}

/// A store that describes the part of a rank, of an array that was let through, can be seen in the indices of the array.
pub fn admitted_parts_can_be_viewed()
    ensures { PartsCanBeViewed }
{}
