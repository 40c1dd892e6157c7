//! Laws of views. Each function does nothing: its contract is the law.

ghost use Rattle.std.specs.Prelude.{◌≡◌};
ghost use Rattle.format_model.specs.Trees.{Tree, axis_at, content};
ghost use Rattle.local_views.specs.Views.{Cut, DescribedPartsFit, global_index, moved_content, view_tree};

/// A view lists what its store lists, each index turned into that of the array.
pub fn a_view_lists_its_store_in_global_indices()
    ensures { (cut : Cut) (t : Tree) →
        content (view_tree cut t) ≡ moved_content (global_index cut (axis_at t 0)) (global_index cut (axis_at t 1)) (content t) }
{}

/// A store that describes the part of a rank can be seen in the indices of the array, where its lines hang below the root.
pub fn described_parts_fit()
    ensures { DescribedPartsFit }
{}
