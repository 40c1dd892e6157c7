ghost use Rattle.std.specs.Prelude.{◌≡◌, ◌<◌, ◌≤◌};
ghost use Rattle.bern_base.specs.declared.limits.TheConstants.{MOST_RANKS};

use bern_base::{Items, NoMemory, Steps, Text};
use bern_ports::{MemShelf, are_once};
use bern_top::{LoadError, replay_call, run_call};
use std::alloc::Global;
use std::marker::Brand;
use std::sync::ledger::{Blank, Ledger};
use std::test::Fail;

const HEAD: &[u8] =
    b"extent n 3\nextent m 2\nplace p n block\nformat csr row dense > col packed\nformat full row dense > col dense\nformat vec row dense\narray A n,n csr row by p from a.mtx\narray X n vec row by p from x.mtx\narray Y n vec row by p zero\n";

const A: &[u8] = b"%%MatrixMarket matrix coordinate integer general\n3 3 3\n1 1 2\n1 3 1\n3 2 5\n";

const X: &[u8] = b"%%MatrixMarket matrix array integer general\n3 1\n1\n2\n3\n";

const ORDER: &[u8] = b"%%MatrixMarket matrix array integer general\n3 1\n2\n3\n1\n";

fn file(alloc: Global, name: &[u8], bytes: &[u8]) -> Result<(Text, Text), NoMemory> {
    Ok((
        Text::from_bytes(alloc, name)?,
        Text::from_bytes(alloc, bytes)?,
    ))
}

/// The files of a job of these lines.
fn shelf(alloc: Global, front: &[u8], lines: &[u8]) -> Result<MemShelf, Fail> {
    let mut job = Text::from_bytes(alloc, front)?;
    job.append(lines)?;
    let mut files = Items::new(alloc);
    files.push(file(alloc, b"job.txt", job.as_bytes())?)?;
    files.push(file(alloc, b"a.mtx", A)?)?;
    files.push(file(alloc, b"x.mtx", X)?)?;
    files.push(file(alloc, b"order.mtx", ORDER)?)?;
    if are_once(&files) {
        return Ok(MemShelf::new(alloc, files, 64, Items::new(alloc))?);
    }
    Err(Fail::from("a name stands twice"))
}

fn counted<L: Ledger>(
    alloc: Global,
    mut shelf: MemShelf,
    seed: Option<u64>,
    blank: Blank,
) -> Result<Result<Text, LoadError>, NoMemory>
    requires name { blank.name ≡ L.name }
    requires parts { blank.parts ≡ L.parts }
    requires some { 0 < blank.parts }
{
    let mut steps: Steps<L> = Steps::start(blank);
    let job = Text::from_bytes(alloc, b"job.txt")?;
    Ok(match seed {
        None => run_call(alloc, &job, 3, false, &mut shelf, &mut steps),
        Some(seed) => replay_call(alloc, &job, 2, seed, &mut shelf, &mut steps),
    })
}

/// What a run of a job of these lines prints, or a replay where there is a seed.
fn printed(alloc: Global, front: &[u8], lines: &[u8], seed: Option<u64>) -> Result<Text, Fail> {
    let shelf = shelf(alloc, front, lines)?;
    Ok(counted::<Brand>(alloc, shelf, seed, Blank::new(1))?.map_err(|_| "no text")?)
}

/// The lines after the declarations of A, X and Y, and what is printed.
const RUNS: &[(&[u8], &[u8])] = &[
    // The order of print lines.
    (
        b"doany i 0..n : Y[i] = X[i]*X[i]\nprint Y\nprint X\n",
        b"%%MatrixMarket matrix array integer general\n% Y\n3 1\n1\n4\n9\n%%MatrixMarket matrix array integer general\n% X\n3 1\n1\n2\n3\n",
    ),
    // Column by column.
    (
        b"array D n,m full row by p zero\ndoany i 0..n j 0..m : D[i,j] = A[i,j] + 10*X[j]\nprint D\n",
        b"%%MatrixMarket matrix array integer general\n% D\n3 2\n12\n10\n10\n20\n20\n25\n",
    ),
    // Columns outside.
    (
        b"format turned col dense > row dense\narray D n,m turned row by p zero\ndoany i 0..n j 0..m : D[i,j] += A[i,j]\ndoany i 0..n : Y[i] = D[i,1]\nprint Y\n",
        b"%%MatrixMarket matrix array integer general\n% Y\n3 1\n0\n0\n5\n",
    ),
    // An element that no term reaches is 0 after `=`, and one that no point writes stays.
    (
        b"doany i 0..n : Y[i] = X[i]\ndoany i 0..n where i < 2 : Y[i] = A[i,2]\nprint Y\n",
        b"%%MatrixMarket matrix array integer general\n% Y\n3 1\n1\n0\n3\n",
    ),
    // Strides, a minus, parentheses, and a target that is read.
    (
        b"doany i 0..2 : Y[2*i] = -X[2-2*i]\ndoany i 0..n : Y[i] = Y[i]*(X[i] - 2) + 7\nprint Y\n",
        b"%%MatrixMarket matrix array integer general\n% Y\n3 1\n10\n7\n6\n",
    ),
    // Nothing is printed.
    (b"doany i 0..n : Y[i] = X[i]\n", b""),
];

#[test]
fn a_run_prints_what_the_loops_leave(rt: HostRuntime) -> Result<(), Fail> {
    let alloc = rt.alloc();
    for (lines, due) in RUNS {
        assert_eq!(rt; printed(alloc, HEAD, lines, None)?.as_bytes(), *due);
    }
    Ok(())
}

/// Formats of a matrix.
const FORMATS: &[&[u8]] = &[
    b"row dense > col packed",
    b"row packed > col packed",
    b"row dense > col dense",
    b"col dense > row dense",
    b"row col list",
    b"jagged",
    b"permute order.mtx row dense > col packed",
    b"diagonal -1 0 2",
];

#[test]
fn a_matrix_has_one_product_in_all_formats(rt: HostRuntime) -> Result<(), Fail> {
    let alloc = rt.alloc();
    let due = b"%%MatrixMarket matrix array integer general\n% Y\n3 1\n5\n0\n10\n".as_slice();
    for format in FORMATS {
        let mut front = Text::from_bytes(
            alloc,
            b"extent n 3\nplace p n block\nformat vec row dense\nformat f ",
        )?;
        front.append(format)?;
        front.append(
            b"\narray A n,n f row by p from a.mtx\narray X n vec row by p from x.mtx\narray Y n vec row by p zero\n",
        )?;
        let lines = b"doany i 0..n j 0..n : Y[i] += A[i,j]*X[j]\nprint Y\n".as_slice();
        assert_eq!(rt;
            printed(alloc, front.as_bytes(), lines, None)?.as_bytes(),
            due
        );
    }
    Ok(())
}

#[test]
fn a_replay_prints_all_arrays_and_its_events(rt: HostRuntime) -> Result<(), Fail> {
    let alloc = rt.alloc();
    let lines = b"doany i 0..n j 0..n : Y[i] += A[i,j]*X[j]\nprint X\nprint Y\n".as_slice();
    assert_eq!(rt;
        printed(alloc, HEAD, lines, Some(7))?.as_bytes(),
        b"%%MatrixMarket matrix array integer general\n% X\n3 1\n1\n2\n3\n%%MatrixMarket matrix array integer general\n% Y\n3 1\n5\n0\n10\nevents 14\n".as_slice()
    );
    Ok(())
}
