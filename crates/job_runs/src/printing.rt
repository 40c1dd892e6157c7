ghost use Rattle.std.specs.Prelude.{◌≡◌, ◌++◌, ◌*◌, ◌<◌, ℕ, true, length, map, slice_set, IfOk, OnOk};
ghost use Rattle.std.specs.List.{All, range_with_len};
ghost use Rattle.bern_base.specs.Matrix.{IsMatrix, values_of};
ghost use Rattle.mm_profile.specs.ArrayText.{array_text};
ghost use Rattle.format_model.specs.Grids.{HasElement, value_of_element};
ghost use Rattle.formats.specs.AnyStores.{any_grid};
ghost use Rattle.job_model.specs.Accepted.{IsDenseAt};
ghost use Rattle.job_model.specs.State.{State};
ghost use Rattle.rank_product.specs.Runs.{AreOfJob, first_state};
ghost use Rattle.rank_product.specs.Shapes.{IsProduct};
ghost use Rattle.term_model.specs.Activity.{Entries};
ghost use Rattle.whole_laws.specs.HeldArrays.{HoldsState};
ghost use Rattle.job_runs.specs.Printing.{CanPrint, replayed_values};
ghost use Rattle.job_runs.specs.Texts.{arrays_text};

use access_joins::Cells;
use bern_base::{ArrayDecl, Checked, Items, Matrix, NoMemory, Text, Val};
use formats::AnyStore;
use mm_text::write_array;
use rank_product::ProductShape;
use std::alloc::Global;

/// The printed text of the arrays of the print lines, one after the other, from the stores of all arrays.
pub(crate) fn print_stores(
    alloc: Global,
    job: &Checked,
    stores: &Items<AnyStore>,
) -> Result<Text, NoMemory>
    requires { CanPrint job.now stores.now }
    ensures { (entries : Entries) (state : State) → HoldsState job.now entries state stores.now →
        IfOk result (λ text. text ≡ arrays_text job.now state) }
{
    let mut text = Text::new(alloc);
    for number in job.prints.as_slice() {
        let number = *number as usize;
        let array = job.arrays.at(number);
        let values = store_values(alloc, array.rows * array.cols, stores.at(number))?;
        write_array(&array.name, array.rows, array.cols, &values, &mut text)?;
    }
    Ok(text)
}

/// The first so many elements of a store that is kept whole, by their numbers.
fn store_values(alloc: Global, count: u32, store: &AnyStore) -> Result<Items<Val>, NoMemory>
    requires { (element : ℕ) → element < count → HasElement (any_grid store.now) element }
    ensures { IfOk result (λ values. values ≡ map (value_of_element (any_grid store.now)) (range_with_len 0 count)) }
{
    let mut values = Items::new(alloc);
    for element in 0..count {
        values.push(store.cell(element))?;
    }
    Ok(values)
}

/// The printed text of the arrays of the print lines after a replay: the product's target has these values, and every other array
/// those of its matrix.
pub(crate) fn print_replayed(
    alloc: Global,
    job: &Checked,
    product: ProductShape,
    values: &Items<Val>,
    matrices: &Items<Matrix>,
) -> Result<Text, NoMemory>
    requires prints { All (IsDenseAt job.now) job.now.prints }
    requires product { IsProduct job.now product }
    requires matrices { AreOfJob job.now matrices.now }
    requires long { length values.now ≡ product.size }
    ensures { IfOk result (λ text. text ≡ arrays_text job.now (slice_set (first_state matrices.now) product.target values.now)) }
{
    let mut text = Text::new(alloc);
    for number in job.prints.as_slice() {
        let at = *number as usize;
        let replayed = *number == product.target;
        write_replayed(
            alloc,
            job.arrays.at(at),
            replayed,
            values,
            matrices.at(at),
            &mut text,
        )?;
    }
    Ok(text)
}

/// Appends the printed text of an array after a replay: with these values, or with those of its matrix.
fn write_replayed(
    alloc: Global,
    array: &ArrayDecl,
    replayed: bool,
    values: &Items<Val>,
    matrix: &Matrix,
    text: &mut Text,
) -> Result<(), NoMemory>
    requires matrix { IsMatrix matrix.now }
    requires long { replayed ≡ true → length values.now ≡ array.now.rows * array.now.cols }
    requires own { length (values_of matrix.now) ≡ array.now.rows * array.now.cols }
    ensures { OnOk result (text.new ≡ text.old ++ array_text array.now.name array.now.rows array.now.cols (replayed_values replayed values.now matrix.now)) }
{
    if replayed {
        return write_array(&array.name, array.rows, array.cols, values, text);
    }
    let own = matrix.values(alloc)?;
    write_array(&array.name, array.rows, array.cols, &own, text)
}
