use access_joins::{Access, Cells, Line};
use bern_base::{Axis, Steps, Val};
use std::sync::ledger::Ledger;
use stores_flat::{DenseStore, ListStore};
use stores_packed::PackedStore;
use stores_shaped::{DiagonalStore, JaggedStore, PermutedStore};

/// A store of any format. Each call is handed on to the store within.
#[derive(Debug, Drop)]
pub enum AnyStore {
    Dense(DenseStore),
    List(ListStore),
    Packed(PackedStore),
    Jagged(JaggedStore),
    Diagonal(DiagonalStore),
    Permuted(PermutedStore<PackedStore>),
}

impl Access for AnyStore {
    ghost use Rattle.formats.specs.AnyStores.{any_tree, any_is_tree};

    ghost tree = { any_tree };

    ghost lawful = { any_is_tree };

    fn levels(&self) -> u32 {
        match self {
            AnyStore::Dense(store) => store.levels(),
            AnyStore::List(store) => store.levels(),
            AnyStore::Packed(store) => store.levels(),
            AnyStore::Jagged(store) => store.levels(),
            AnyStore::Diagonal(store) => store.levels(),
            AnyStore::Permuted(store) => store.levels(),
        }
    }

    fn axis(&self, level: u32) -> Axis {
        match self {
            AnyStore::Dense(store) => store.axis(level),
            AnyStore::List(store) => store.axis(level),
            AnyStore::Packed(store) => store.axis(level),
            AnyStore::Jagged(store) => store.axis(level),
            AnyStore::Diagonal(store) => store.axis(level),
            AnyStore::Permuted(store) => store.axis(level),
        }
    }

    fn ordered(&self, level: u32) -> bool {
        match self {
            AnyStore::Dense(store) => store.ordered(level),
            AnyStore::List(store) => store.ordered(level),
            AnyStore::Packed(store) => store.ordered(level),
            AnyStore::Jagged(store) => store.ordered(level),
            AnyStore::Diagonal(store) => store.ordered(level),
            AnyStore::Permuted(store) => store.ordered(level),
        }
    }

    fn count(&self, level: u32, parent: u32) -> u32 {
        match self {
            AnyStore::Dense(store) => store.count(level, parent),
            AnyStore::List(store) => store.count(level, parent),
            AnyStore::Packed(store) => store.count(level, parent),
            AnyStore::Jagged(store) => store.count(level, parent),
            AnyStore::Diagonal(store) => store.count(level, parent),
            AnyStore::Permuted(store) => store.count(level, parent),
        }
    }

    fn at(&self, level: u32, parent: u32, k: u32) -> (u64, u32) {
        match self {
            AnyStore::Dense(store) => store.at(level, parent, k),
            AnyStore::List(store) => store.at(level, parent, k),
            AnyStore::Packed(store) => store.at(level, parent, k),
            AnyStore::Jagged(store) => store.at(level, parent, k),
            AnyStore::Diagonal(store) => store.at(level, parent, k),
            AnyStore::Permuted(store) => store.at(level, parent, k),
        }
    }

    fn find<L: Ledger>(
        &self,
        level: u32,
        parent: u32,
        index: u64,
        steps: &mut Steps<L>,
    ) -> Option<u32> {
        match self {
            AnyStore::Dense(store) => store.find(level, parent, index, steps),
            AnyStore::List(store) => store.find(level, parent, index, steps),
            AnyStore::Packed(store) => store.find(level, parent, index, steps),
            AnyStore::Jagged(store) => store.find(level, parent, index, steps),
            AnyStore::Diagonal(store) => store.find(level, parent, index, steps),
            AnyStore::Permuted(store) => store.find(level, parent, index, steps),
        }
    }

    fn value(&self, leaf: u32) -> Val {
        match self {
            AnyStore::Dense(store) => store.value(leaf),
            AnyStore::List(store) => store.value(leaf),
            AnyStore::Packed(store) => store.value(leaf),
            AnyStore::Jagged(store) => store.value(leaf),
            AnyStore::Diagonal(store) => store.value(leaf),
            AnyStore::Permuted(store) => store.value(leaf),
        }
    }

    fn line(&self, level: u32, parent: u32) -> Line {
        match self {
            AnyStore::Dense(store) => store.line(level, parent),
            AnyStore::List(store) => store.line(level, parent),
            AnyStore::Packed(store) => store.line(level, parent),
            AnyStore::Jagged(store) => store.line(level, parent),
            AnyStore::Diagonal(store) => store.line(level, parent),
            AnyStore::Permuted(store) => store.line(level, parent),
        }
    }

    fn entry(&self, level: u32, parent: u32, from: u32, place: u32) -> (u64, u32) {
        match self {
            AnyStore::Dense(store) => store.entry(level, parent, from, place),
            AnyStore::List(store) => store.entry(level, parent, from, place),
            AnyStore::Packed(store) => store.entry(level, parent, from, place),
            AnyStore::Jagged(store) => store.entry(level, parent, from, place),
            AnyStore::Diagonal(store) => store.entry(level, parent, from, place),
            AnyStore::Permuted(store) => store.entry(level, parent, from, place),
        }
    }
}

impl Cells for AnyStore {
    ghost use Rattle.formats.specs.AnyStores.{any_grid, any_lists};

    ghost grid = { any_grid };

    ghost listed = { any_lists };

    fn cell(&self, element: u32) -> Val {
        match self {
            AnyStore::Dense(store) => store.cell(element),
            _ => unreachable!(),
        }
    }

    fn set(&mut self, element: u32, value: Val) {
        match self {
            AnyStore::Dense(store) => store.set(element, value),
            _ => unreachable!(),
        }
    }
}
