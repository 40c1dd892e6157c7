ghost use Rattle.std.specs.Prelude.{◌≡◌, ◌<◌, IfOk, length};
ghost use Rattle.std.specs.List.{All};
ghost use Rattle.bern_base.specs.Matrix.{IsMatrix};
ghost use Rattle.job_plans.specs.Least.{measured, measured_at};

use bern_base::{Checked, Items, Matrix, NoMemory, Stats};
use formats::stats;
use std::alloc::Global;

/// What is measured of each array of a job, by its matrix.
pub fn measured(
    alloc: Global,
    job: &Checked,
    matrices: &Items<Matrix>,
) -> Result<Items<Stats>, NoMemory>
    requires count { length matrices.now ≡ length job.now.arrays }
    requires matrices { All IsMatrix matrices.now }
    ensures { IfOk result (λ stats. stats ≡ measured job.now matrices.now) }
{
    let mut found = Items::new(alloc);
    for number in 0..job.arrays.len() {
        found.push(measured_at(alloc, job, matrices, number)?)?;
    }
    Ok(found)
}

/// What is measured of an array.
fn measured_at(
    alloc: Global,
    job: &Checked,
    matrices: &Items<Matrix>,
    number: usize,
) -> Result<Stats, NoMemory>
    requires array { number < length job.now.arrays }
    requires matrix { number < length matrices.now }
    requires matrices { All IsMatrix matrices.now }
    ensures { IfOk result (λ stats. stats ≡ measured_at job.now matrices.now number) }
{
    let array = job.arrays.at(number);
    match job.formats.get(array.format as usize) {
        Some(format) => stats(alloc, format, matrices.at(number)),
        None => Ok(Stats {
            levels: Items::new(alloc),
        }),
    }
}
