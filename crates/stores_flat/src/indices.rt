ghost use Rattle.std.specs.Prelude.{◌≡◌, ◌<◌, length, map, slice_index, IfOk};
ghost use Rattle.bern_base.specs.Matrix.{number};
ghost use Rattle.stores_flat.specs.Lists.{index_list, list_axis, flat_axis};
ghost use Rattle.format_model.specs.Axes.{index_of};

use bern_base::{Axis, Items, Matrix, NoMemory};
use std::alloc::Global;

/// The index of each entry of a list.
#[derive(Debug, Drop)]
pub enum Indices {
    Rows(Items<u32>),
    /// Element numbers, row * cols + col.
    Elements(Items<u64>),
}

impl Indices {
    /// The element numbers of the entries of a part, or their rows.
    pub fn of(alloc: Global, part: &Matrix, flat: bool) -> Result<Indices, NoMemory>
        ensures axis { IfOk result (λ indices. list_axis indices ≡ flat_axis flat) }
        ensures items { IfOk result (λ indices. index_list indices ≡ map (index_of (flat_axis flat) part.now.cols) part.now.entries) }
    {
        if flat {
            Ok(Indices::Elements(element_numbers(alloc, part)?))
        } else {
            Ok(Indices::Rows(rows(alloc, part)?))
        }
    }

    /// The axis on which the indices lie.
    pub fn axis(&self) -> Axis
        ensures { result ≡ list_axis self.now }
    {
        match self {
            Indices::Rows(_) => Axis::Row,
            Indices::Elements(_) => Axis::Both,
        }
    }

    pub fn at(&self, place: u32) -> u64
        requires { place < length (index_list self.now) }
        ensures { result ≡ slice_index (index_list self.now) place }
    {
        match self {
            Indices::Rows(rows) => *rows.at(place as usize) as u64,
            Indices::Elements(numbers) => *numbers.at(place as usize),
        }
    }
}

fn rows(alloc: Global, part: &Matrix) -> Result<Items<u32>, NoMemory>
    ensures { IfOk result (λ rows. rows ≡ map (λ e. e.row) part.now.entries) }
{
    let rows = part.entries.as_slice().iter().map(|e| e.row);
    Ok(Items::from_vec(rows.collect(alloc)?))
}

fn element_numbers(alloc: Global, part: &Matrix) -> Result<Items<u64>, NoMemory>
    ensures { IfOk result (λ numbers. numbers ≡ map (number part.now.cols) part.now.entries) }
{
    let cols = part.cols;
    let numbers = part.entries.as_slice().iter().map(|e| e.number(cols));
    Ok(Items::from_vec(numbers.collect(alloc)?))
}
