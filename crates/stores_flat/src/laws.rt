//! Laws of stores. Each function does nothing: its contract is the law.

ghost use Rattle.std.specs.Prelude.{◌≡◌, ℕ, List, Bool, Some};
ghost use Rattle.bern_base.specs.declared.axes.Axis.{Axis};
ghost use Rattle.bern_base.specs.declared.matrix.Matrix.{Matrix};
ghost use Rattle.format_model.specs.Trees.{Describes};
ghost use Rattle.stores_flat.specs.Changes.{SetsElement};
ghost use Rattle.stores_flat.specs.Dense.{dense_shape, grid_of};

use crate::dense::DenseStore;
use access_joins::{Access, Cells};

/// A dense store describes each part whose elements it has.
pub fn a_store_describes_the_part_of_its_elements()
    ensures { (s : DenseStore) (single : Bool) (outer : Axis) (part : Matrix) →
        ⟦<DenseStore as Cells>⟧.grid s ≡ Some (grid_of single outer part) →
        (globals order : List ℕ) → Describes (⟦<DenseStore as Access>⟧.tree s) (dense_shape single outer) globals order part }
{}

/// After `set` a store that had the elements of a part has those of the part with that one changed, and describes it.
pub fn a_set_store_describes_the_changed_part()
    ensures grid { (s t : DenseStore) (single : Bool) (outer : Axis) (old new : Matrix) (element value : ℕ) →
        SetsElement (⟦<DenseStore as Cells>⟧.grid s) (⟦<DenseStore as Cells>⟧.grid t) single outer old new element value →
        ⟦<DenseStore as Cells>⟧.grid t ≡ Some (grid_of single outer new) }
    ensures describes { (s t : DenseStore) (single : Bool) (outer : Axis) (old new : Matrix) (element value : ℕ) →
        SetsElement (⟦<DenseStore as Cells>⟧.grid s) (⟦<DenseStore as Cells>⟧.grid t) single outer old new element value →
        (globals order : List ℕ) → Describes (⟦<DenseStore as Access>⟧.tree t) (dense_shape single outer) globals order new }
{}
