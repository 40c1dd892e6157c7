ghost use Rattle.std.specs.Prelude.{◌≡◌, ℕ, ◌+◌, ◌-◌, ◌^◌, ◌<◌, ◌≤◌, length, slice_get};
ghost use Rattle.format_model.specs.Trees.{Tree, IsTree, IsParent, IsLeaf, axis_at, child_at, depth_of, ordered_at, weight_at};

use access_joins::{Access, Line};
use bern_base::{Axis, Steps, Val};
use std::cell::Cell;
use std::sync::ledger::Ledger;

/// A store that counts the calls that read a child.
#[derive(Drop)]
pub struct Probe<V: Access> {
    pub store: V,
    pub calls: Cell<u32>,
}

impl<V: Access> Probe<V> {
    fn note(&self) {
        self.calls.set(self.calls.get().saturating_add(1));
    }
}

impl<V: Access> Access for Probe<V> {
    ghost tree = { λ p. V.tree p.store };

    ghost lawful = { λ p. V.lawful p.store };

    fn levels(&self) -> u32 {
        self.store.levels()
    }

    fn axis(&self, level: u32) -> Axis {
        self.store.axis(level)
    }

    fn ordered(&self, level: u32) -> bool {
        self.store.ordered(level)
    }

    fn count(&self, level: u32, parent: u32) -> u32 {
        self.store.count(level, parent)
    }

    fn at(&self, level: u32, parent: u32, k: u32) -> (u64, u32) {
        self.note();
        self.store.at(level, parent, k)
    }

    fn find<L: Ledger>(
        &self,
        level: u32,
        parent: u32,
        index: u64,
        steps: &mut Steps<L>,
    ) -> Option<u32> {
        self.note();
        self.store.find(level, parent, index, steps)
    }

    fn value(&self, leaf: u32) -> Val {
        self.store.value(leaf)
    }

    fn line(&self, level: u32, parent: u32) -> Line {
        self.store.line(level, parent)
    }

    fn entry(&self, level: u32, parent: u32, from: u32, place: u32) -> (u64, u32) {
        self.at(level, parent, place - from)
    }
}
