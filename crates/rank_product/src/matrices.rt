ghost use Rattle.std.specs.Prelude.{◌≡◌, ◌↔◌, IsTrue, map};
ghost use Rattle.std.specs.List.{All};
ghost use Rattle.bern_base.specs.Matrix.{IsMatrix};
ghost use Rattle.rank_product.specs.Runs.{AreOfJob, declared_sizes, sizes_of};

use bern_base::{ArrayDecl, Checked, Items, Matrix, is_matrix};

/// Whether these are matrices for the arrays of a job, each of the rows and columns of its array. One pass over all
/// entries.
pub fn are_of_job(job: &Checked, matrices: &Items<Matrix>) -> bool
    ensures { IsTrue result ↔ AreOfJob job.now matrices.now }
{
    have_sizes(matrices.as_slice(), job.arrays.as_slice()) && are_matrices(matrices.as_slice())
}

fn have_sizes(matrices: &[Matrix], arrays: &[ArrayDecl]) -> bool
    ensures { IsTrue result ↔ map sizes_of matrices.now ≡ map declared_sizes arrays.now }
{
    if matrices.len() != arrays.len() {
        return false;
    }
    for at in 0..matrices.len() {
        if !has_sizes(&matrices[at], &arrays[at]) {
            return false;
        }
    }
    true
}

fn has_sizes(matrix: &Matrix, array: &ArrayDecl) -> bool
    ensures { IsTrue result ↔ sizes_of matrix.now ≡ declared_sizes array.now }
{
    matrix.rows == array.rows && matrix.cols == array.cols
}

fn are_matrices(matrices: &[Matrix]) -> bool
    ensures { IsTrue result ↔ All IsMatrix matrices.now }
{
    for matrix in matrices {
        if !is_matrix(matrix) {
            return false;
        }
    }
    true
}
