//! The laws of views. Each function does nothing: its contract is the law.

ghost use Rattle.std.specs.Prelude.{ℕ, Bool};
ghost use Rattle.bern_base.specs.declared.job.Checked.{Checked};
ghost use Rattle.bern_base.specs.declared.axes.Axis.{Axis};
ghost use Rattle.bern_base.specs.declared.matrix.Matrix.{Matrix};
ghost use Rattle.formats.specs.declared.any_store.AnyStore.{AnyStore as Store};
ghost use Rattle.local_views.specs.Views.{cut_of};
ghost use Rattle.local_views.specs.declared.view.LocalView.{LocalView as View};
ghost use Rattle.plan_courses.specs.JobCourses.{IsView};
ghost use Rattle.term_model.specs.Activity.{Entries};
ghost use Rattle.term_model.specs.Answers.{Places};
ghost use Rattle.view_laws.specs.PartViews.{HoldsPart, PlansOverViewsWalkTheAnswer, ViewsHaveTheValues, ViewsOfPartsAreViews, view_at};
ghost use Rattle.view_laws.specs.SetViews.{HasElements, SetsViewed};

use access_joins::{Access, Cells};
use formats::AnyStore;
use local_views::LocalView;
use placement::Placement;

/// After `set` through a view, by an element's number in the part, the store within has the elements of the part with that one
/// changed, and describes it; and the view has these elements at their rows and columns of the array.
pub fn a_set_view_describes_the_changed_part<P: Placement>()
    ensures { (v w : View AnyStore P ⟦<AnyStore as Access>⟧ ⟦<P as Placement>⟧)
        (single : Bool) (outer : Axis) (old new : Matrix) (element value : ℕ) →
        SetsViewed (⟦<AnyStore as Cells>⟧.grid v.store) (⟦<LocalView<AnyStore, P> as Cells>⟧.grid v)
        (⟦<LocalView<AnyStore, P> as Cells>⟧.grid w) single outer old new element value →
        HasElements (cut_of v.axis v.cols (P.triples v.place) v.rank) (⟦<AnyStore as Access>⟧.tree w.store)
        (⟦<AnyStore as Cells>⟧.grid w.store) (⟦<LocalView<AnyStore, P> as Cells>⟧.grid w) single outer new }
{}

/// The view of the part of a rank, of an array of a job, is what the job's loops ask for: lawful, with the levels of the array's
/// format, and at each element that the rank owns searches lead to a leaf exactly where the array stores it; and that leaf has the
/// element's value.
pub fn the_views_of_parts_are_views()
    ensures views { ViewsOfPartsAreViews }
    ensures values { ViewsHaveTheValues }
    ensures stores { (job : Checked) (entries : Entries) (places : Places) (ranks rank number : ℕ) (s : Store) →
        (h : HoldsPart job entries places ranks rank number (⟦<AnyStore as Access>⟧.tree s)) →
        IsView job entries places rank number (view_at places h.array rank (⟦<AnyStore as Access>⟧.tree s)) }
{}

/// Over the views of a rank's parts the walk of every plan of a term gives the points of the nest that are at home at the rank and
/// at which each sparse reference is stored, each once.
pub fn plans_over_views_walk_the_answer()
    ensures { PlansOverViewsWalkTheAnswer }
{}
