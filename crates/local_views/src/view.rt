ghost use Rattle.std.specs.Prelude.{◌≡◌, ◌≢◌, ℕ, ◌^◌, ◌<◌, ◌≤◌, IfSome, IsNone, length};
ghost use Rattle.bern_base.specs.declared.axes.Axis.TheVariants as axis_is;
ghost use Rattle.format_model.specs.declared.limits.TheConstants.{MOST_INDEX};
ghost use Rattle.local_views.specs.Views.{Fits, IsCut, IsElsewhere, IsEnd, IsInCut, IsLocal, IsOwnBy, cut_of, global_col, global_index, global_row, own_cols, view_grid, view_tree};
ghost use Rattle.local_views.specs.ViewLaws.{fits_prop, view_is_tree, view_lists};
ghost use Rattle.placement.specs.Placement.{global_of, owned_of};

use access_joins::{Access, Cells, Line};
use bern_base::{Axis, Steps, Val};
use placement::Placement;
use std::sync::ledger::Ledger;

/// The store of a rank's part, seen in the indices of the whole array: each index of the split axis is the one for which the
/// local index stands.
///
/// It keeps nothing for each index.
#[derive(Debug, Drop)]
pub struct LocalView<S: Access, P: Placement> {
    store: S,
    place: P,
    /// The axis along which the array is split.
    axis: Axis,
    /// The columns of the whole array, and of the part.
    cols: u32,
    own: u32,
    rank: u32,
    /// How many indices of the split axis the rank owns, and one more than the greatest of them.
    owned: u32,
    end: u64,
    ghost few: { owned < 2 ^ 32 },
    ghost end_small: { end ≤ 2 ^ 32 },
    ghost owned_is: { owned ≡ owned_of (P.triples place) rank },
    ghost own_is: { own ≡ own_cols axis cols owned },
    ghost end_is: { IsEnd (cut_of axis cols (P.triples place) rank) (length (P.triples place)) end },
    ghost fits: { Fits (cut_of axis cols (P.triples place) rank) (S.tree store) } by { fits_prop (cut_of axis cols (P.triples place) rank)
        (S.tree store) },
    ghost cut: { IsCut (cut_of axis cols (P.triples place) rank) },
}

impl<S: Access, P: Placement> LocalView<S, P> {
    /// Sees a store of the part of a rank in global indices: the array is split along `axis`, rows or columns, as `place` says,
    /// and has `cols` columns in all. It takes no memory.
    pub fn new(store: S, place: P, axis: Axis, cols: u32, rank: u32) -> LocalView<S, P>
        requires rank { rank < P.ranks place }
        requires cols { axis ≡ axis_is.Col → cols ≡ length (P.triples place) }
        requires fits { Fits (cut_of axis cols (P.triples place) rank) (S.tree store) }
        ensures store { result.store ≡ store }
        ensures tree { ⟦<LocalView<S, P> as Access>⟧.tree result ≡
            view_tree (cut_of axis cols (P.triples place) rank) (S.tree store) }
    {
        let owned = place.owned(rank);
        let end = end_of(&place, rank, owned);
        let own = if axis == Axis::Col { owned } else { cols };
        LocalView {
            store,
            place,
            axis,
            cols,
            own,
            rank,
            owned,
            end,
        }
    }

    /// The store, in local indices.
    pub fn store(&self) -> &S
        ensures { result.now ≡ self.now.store }
    {
        &self.store
    }

    /// The index of the array for one of the part.
    fn globalize(&self, axis: Axis, index: u64) -> u64
        requires inside { IsInCut (cut_of self.now.axis self.now.cols (P.triples self.now.place) self.now.rank) axis index }
        requires small { global_index (cut_of self.now.axis self.now.cols (P.triples self.now.place) self.now.rank) axis index
            ≤ MOST_INDEX }
        ensures { result ≡ global_index (cut_of self.now.axis self.now.cols (P.triples self.now.place) self.now.rank) axis index }
    {
        match axis {
            Axis::Row => self.row(index),
            Axis::Col => self.col(index),
            Axis::Both => {
                let own = self.own as u64;
                self.row(index / own) * self.cols as u64 + self.col(index % own)
            }
        }
    }

    /// The row of the array for one of the part.
    fn row(&self, row: u64) -> u64
        requires { IsOwnBy self.now.axis axis_is.Row self.now.owned row }
        ensures { result ≡ global_row (cut_of self.now.axis self.now.cols (P.triples self.now.place) self.now.rank) row }
    {
        match self.axis {
            Axis::Row => self.place.global(self.rank, row as u32) as u64,
            _ => row,
        }
    }

    /// The column of the array for one of the part.
    fn col(&self, col: u64) -> u64
        requires { IsOwnBy self.now.axis axis_is.Col self.now.owned col }
        ensures { result ≡ global_col (cut_of self.now.axis self.now.cols (P.triples self.now.place) self.now.rank) col }
    {
        match self.axis {
            Axis::Col => self.place.global(self.rank, col as u32) as u64,
            _ => col,
        }
    }

    /// The index of the part for one of the array, where the rank owns it.
    fn localize(&self, axis: Axis, index: u64) -> Option<u64>
        ensures some { IfSome result (IsLocal (cut_of self.now.axis self.now.cols (P.triples self.now.place) self.now.rank) axis index) }
        ensures none { IsNone result →
            IsElsewhere (cut_of self.now.axis self.now.cols (P.triples self.now.place) self.now.rank) axis index }
    {
        match axis {
            Axis::Row => self.local_row(index),
            Axis::Col => self.local_col(index),
            Axis::Both => self.local_element(index),
        }
    }

    /// The number of an element in the part for its number in the array.
    fn local_element(&self, element: u64) -> Option<u64>
        ensures some { IfSome result
            (IsLocal (cut_of self.now.axis self.now.cols (P.triples self.now.place) self.now.rank) axis_is.Both element) }
        ensures none { IsNone result →
            IsElsewhere (cut_of self.now.axis self.now.cols (P.triples self.now.place) self.now.rank) axis_is.Both element }
    {
        let cols = self.cols as u64;
        if cols == 0 {
            return None;
        }
        let Some(row) = self.local_row(element / cols) else {
            return None;
        };
        let Some(col) = self.local_col(element % cols) else {
            return None;
        };
        Some(row * self.own as u64 + col)
    }

    /// The row of the part for one of the array.
    fn local_row(&self, row: u64) -> Option<u64>
        ensures some { IfSome result
            (IsLocal (cut_of self.now.axis self.now.cols (P.triples self.now.place) self.now.rank) axis_is.Row row) }
        ensures none { IsNone result →
            IsElsewhere (cut_of self.now.axis self.now.cols (P.triples self.now.place) self.now.rank) axis_is.Row row }
    {
        match self.axis {
            Axis::Row => self.local(row),
            _ => Some(row),
        }
    }

    /// The column of the part for one of the array.
    fn local_col(&self, col: u64) -> Option<u64>
        ensures some { IfSome result
            (IsLocal (cut_of self.now.axis self.now.cols (P.triples self.now.place) self.now.rank) axis_is.Col col) }
        ensures none { IsNone result →
            IsElsewhere (cut_of self.now.axis self.now.cols (P.triples self.now.place) self.now.rank) axis_is.Col col }
    {
        match self.axis {
            Axis::Col => self.local(col),
            _ => Some(col),
        }
    }

    /// The number of an index of the split axis among those of the rank, where it is one of them.
    fn local(&self, index: u64) -> Option<u64>
        ensures some { IfSome result (λ l. (l < self.now.owned) × (global_of (P.triples self.now.place) self.now.rank l ≡ index)) }
        ensures none { IsNone result → (l : ℕ) → l < self.now.owned → global_of (P.triples self.now.place) self.now.rank l ≢ index }
    {
        if index >= self.end {
            return None;
        }
        let seat = self.place.seat(index as u32);
        if seat.owner == self.rank {
            Some(seat.local as u64)
        } else {
            None
        }
    }
}

impl<S: Access, P: Placement + Drop> LocalView<S, P> {
    /// Gives the store back. It takes no memory.
    pub fn into_store(self) -> S
        ensures { result ≡ self.store }
    {
        self.store
    }
}

/// One more than the greatest index that a rank owns; 0 where it owns none.
fn end_of<P: Placement>(place: &P, rank: u32, owned: u32) -> u64
    requires owned { owned ≡ owned_of (P.triples place.now) rank }
    ensures above { (l : ℕ) → l < owned → global_of (P.triples place.now) rank l < result }
    ensures within { result ≤ length (P.triples place.now) }
    ensures small { result ≤ 2 ^ 32 }
{
    if owned == 0 {
        0
    } else {
        place.global(rank, owned - 1) as u64 + 1
    }
}

impl<S: Access, P: Placement> Access for LocalView<S, P> {
    ghost tree = { λ v. view_tree (cut_of v.axis v.cols (P.triples v.place) v.rank) (S.tree v.store) };

    fn levels(&self) -> u32 {
        self.store.levels()
    }

    fn axis(&self, level: u32) -> Axis {
        self.store.axis(level)
    }

    fn ordered(&self, level: u32) -> bool {
        self.store.ordered(level)
    }

    fn count(&self, level: u32, parent: u32) -> u32 {
        self.store.count(level, parent)
    }

    fn at(&self, level: u32, parent: u32, k: u32) -> (u64, u32) {
        let (index, child) = self.store.at(level, parent, k);
        (self.globalize(self.store.axis(level), index), child)
    }

    fn find<L: Ledger>(
        &self,
        level: u32,
        parent: u32,
        index: u64,
        steps: &mut Steps<L>,
    ) -> Option<u32> {
        match self.localize(self.store.axis(level), index) {
            Some(local) => self.store.find(level, parent, local, steps),
            None => None,
        }
    }

    fn value(&self, leaf: u32) -> Val {
        self.store.value(leaf)
    }

    fn line(&self, level: u32, parent: u32) -> Line {
        self.store.line(level, parent)
    }

    fn entry(&self, level: u32, parent: u32, from: u32, place: u32) -> (u64, u32) {
        let (index, child) = self.store.entry(level, parent, from, place);
        (self.globalize(self.store.axis(level), index), child)
    }

    ghost lawful = { λ v. view_is_tree (cut_of v.axis v.cols (P.triples v.place) v.rank) (S.tree v.store) (S.lawful v.store) v.cut v.fits };
}

impl<S: Cells, P: Placement> Cells for LocalView<S, P> {
    ghost grid = { λ v. view_grid (cut_of v.axis v.cols (P.triples v.place) v.rank) (S.Access.tree v.store).levels (S.grid v.store) };

    ghost listed = { λ v. view_lists (cut_of v.axis v.cols (P.triples v.place) v.rank)
        (S.Access.tree v.store) (S.grid v.store) (S.listed v.store) };

    fn cell(&self, element: u32) -> Val {
        self.store.cell(element)
    }

    fn set(&mut self, element: u32, value: Val) {
        self.store.set(element, value);
    }
}
