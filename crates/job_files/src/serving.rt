ghost use Rattle.std.specs.Prelude.{◌≡◌, ℕ, ◌≤◌, IfOk, IfSome, position};
ghost use Rattle.std.specs.List.{All, AllZip};
ghost use Rattle.std.specs.Option.{option_copied};
ghost use Rattle.bern_base.specs.Matrix.{IsMatrix};
ghost use Rattle.bern_ports.specs.Frames.{KeepsShelf, shelf_state};
ghost use Rattle.job_files.specs.Answers.{HasFaultCause};
ghost use Rattle.job_files.specs.FileOrder.{HasRoom, IsForUse, LoadsUses};
ghost use Rattle.job_files.specs.Serving.{Beside, IsFit, IsFitFor, IsJudged, IsServed, IsTaken, IsWeighed, Serves, Takes, beside_first, is_known};
ghost use Rattle.job_files.specs.Uses.{is_of};

use crate::load_error::{LoadError, refusal};
use crate::matrix_file::load_matrix;
use crate::uses::{Use, count_uses, first_broken, first_use};
use crate::weights::weight_with;
use bern_base::{Items, MOST_WEIGHT, Matrix, NoMemory, Rule, Text};
use bern_ports::Shelf;
use std::alloc::Global;

/// The matrix of a use, and the weight of all arrays with its file.
#[derive(Debug, Drop)]
pub struct Loaded {
    pub matrix: Matrix,
    pub weight: u64,
}

/// The matrix of each use, in the order of the uses, where `weight` is what the arrays weigh without files. Each file is
/// begun once, in the order of first mention; for one file its own rules come first, then those of its uses, and then the
/// weight, to which its entries are added once for each use. A file with several uses is copied for all but one.
pub fn load_uses<F: Shelf>(
    alloc: Global,
    uses: &Items<Use>,
    weight: u64,
    shelf: &mut F,
) -> Result<Items<Matrix>, LoadError>
    requires { weight ≤ MOST_WEIGHT }
    ensures keeps { KeepsShelf (shelf_state F.Shelf shelf.old) (shelf_state F.Shelf shelf.new) }
    ensures cause { HasFaultCause (shelf_state F.Shelf shelf.old) (shelf_state F.Shelf shelf.new) result }
    ensures matrix { IfOk result (λ ms. AllZip IsForUse uses.now ms) }
    ensures room { IfOk result (All (HasRoom weight)) }
    ensures told { IfSome (F.files shelf.old) (λ fs. LoadsUses fs weight uses.now result) }
{
    let mut total = weight;
    let mut matrices = Items::new(alloc);
    'uses: for wanted in uses.as_slice() {
        match next_matrix(alloc, uses, wanted.file(), &matrices, total, shelf) {
            Ok(loaded) => {
                total = loaded.weight;
                match matrices.push(loaded.matrix) {
                    Ok(()) => {}
                    Err(NoMemory) => return Err(LoadError::NoMemory),
                }
            }
            Err(fault) => return Err(fault),
        }
    }
    Ok(matrices)
}

/// The matrix of a use of that file, after those of the uses before it, with which the arrays weigh `weight`.
fn next_matrix<F: Shelf>(
    alloc: Global,
    uses: &Items<Use>,
    file: &Text,
    matrices: &Items<Matrix>,
    weight: u64,
    shelf: &mut F,
) -> Result<Loaded, LoadError>
    requires light { weight ≤ MOST_WEIGHT }
    requires served { IfSome (F.files shelf.old) (λ fs. Beside (IsServed fs uses.now) uses.now matrices.now) }
    ensures keeps { KeepsShelf (shelf_state F.Shelf shelf.old) (shelf_state F.Shelf shelf.new) }
    ensures cause { HasFaultCause (shelf_state F.Shelf shelf.old) (shelf_state F.Shelf shelf.new) result }
    ensures light { IfOk result (λ l. l.weight ≤ MOST_WEIGHT) }
    ensures grows { IfOk result (λ l. weight ≤ l.weight) }
    ensures fit { (first : ℕ) → first ≤ weight → Beside (IsFitFor first uses.now) uses.now matrices.now →
        IfOk result (λ l. IsFit first uses.now file.now l.matrix) }
    ensures told { IfSome (F.files shelf.old) (λ fs. Serves fs uses.now weight file.now (is_known uses.now matrices.now file.now) result) }
{
    match known_matrix(uses, file, matrices) {
        Some(matrix) => match copied(alloc, matrix) {
            Ok(matrix) => Ok(Loaded { matrix, weight }),
            Err(_) => Err(LoadError::NoMemory),
        },
        None => load_file(alloc, uses, file, weight, shelf),
    }
}

/// The matrix of that file, where a use before this one mentions it.
fn known_matrix<'a>(
    uses: &Items<Use>,
    file: &Text,
    matrices: &'a Items<Matrix>,
) -> Option<&'a Matrix>
    ensures { option_copied result ≡ beside_first matrices.now (position (is_of file.now) uses.now) }
{
    match first_use(uses, file.as_bytes()) {
        Some(first) => matrices.get(first),
        None => None,
    }
}

fn copied(alloc: Global, matrix: &Matrix) -> Result<Matrix, NoMemory>
    ensures { IfOk result (λ m. m ≡ matrix.now) }
{
    let entries = Items::from_slice(alloc, matrix.entries.as_slice())?;
    Ok(Matrix {
        rows: matrix.rows,
        cols: matrix.cols,
        entries,
    })
}

/// The matrix of a file that serves all of its uses within the limit.
fn load_file<F: Shelf>(
    alloc: Global,
    uses: &Items<Use>,
    file: &Text,
    weight: u64,
    shelf: &mut F,
) -> Result<Loaded, LoadError>
    requires { weight ≤ MOST_WEIGHT }
    ensures keeps { KeepsShelf (shelf_state F.Shelf shelf.old) (shelf_state F.Shelf shelf.new) }
    ensures cause { HasFaultCause (shelf_state F.Shelf shelf.old) (shelf_state F.Shelf shelf.new) result }
    ensures light { IfOk result (λ l. l.weight ≤ MOST_WEIGHT) }
    ensures grows { IfOk result (λ l. weight ≤ l.weight) }
    ensures fit { IfOk result (λ l. IsFit weight uses.now file.now l.matrix) }
    ensures told { IfSome (F.files shelf.old) (λ fs. Takes fs uses.now weight file.now result) }
{
    match load_matrix(alloc, file, shelf) {
        Ok(matrix) => taken(alloc, uses, file.as_bytes(), weight, matrix),
        Err(fault) => Err(fault),
    }
}

/// The matrix, where it breaks no rule in the uses of that file, and the limit, F7, is kept with it.
fn taken(
    alloc: Global,
    uses: &Items<Use>,
    file: &[u8],
    weight: u64,
    matrix: Matrix,
) -> Result<Loaded, LoadError>
    requires light { weight ≤ MOST_WEIGHT }
    requires matrix { IsMatrix matrix }
    ensures { IsTaken uses.now weight file.now matrix result }
{
    match judged(alloc, uses, file, matrix) {
        Ok(matrix) => weighed(alloc, uses, file, weight, matrix),
        Err(fault) => Err(fault),
    }
}

/// The matrix, where it breaks no rule in the uses of that file.
fn judged(
    alloc: Global,
    uses: &Items<Use>,
    file: &[u8],
    matrix: Matrix,
) -> Result<Matrix, LoadError>
    requires { IsMatrix matrix }
    ensures { IsJudged uses.now file.now matrix result }
{
    match first_broken(alloc, uses, file, &matrix) {
        Ok(None) => Ok(matrix),
        Ok(Some(rule)) => Err(refusal(alloc, file, 0, rule)),
        Err(NoMemory) => Err(LoadError::NoMemory),
    }
}

/// The matrix, where the limit, F7, is kept with its entries for each use of that file.
fn weighed(
    alloc: Global,
    uses: &Items<Use>,
    file: &[u8],
    weight: u64,
    matrix: Matrix,
) -> Result<Loaded, LoadError>
    requires { weight ≤ MOST_WEIGHT }
    ensures { IsWeighed uses.now weight file.now matrix result }
{
    let more = count_uses(uses, file) as u128 * matrix.entries.len() as u128;
    match weight_with(weight, more) {
        Some(weight) => Ok(Loaded { matrix, weight }),
        None => Err(refusal(alloc, file, 0, Rule::F7)),
    }
}
