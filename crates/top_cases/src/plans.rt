use crate::commands::{Outcome, counted, file, words};
use bern_base::Items;
use bern_ports::{MemShelf, are_once};
use std::alloc::Global;
use std::marker::Brand;
use std::sync::ledger::Blank;
use std::test::Fail;

/// Three entries of a matrix of 3 rows and 3 columns.
const MATRIX: &[u8] =
    b"%%MatrixMarket matrix coordinate integer general\n3 3 3\n1 1 2\n1 3 1\n3 2 5\n";

const PRODUCT: &[u8] =
    b"extent n 3\nplace p n block\nformat csr row dense > col packed\nformat vec row dense\narray A n,n csr row by p from a.mtx\narray X n vec row by p zero\narray Y n vec row by p zero\ndoany i 0..n j 0..n : Y[i] += A[i,j]*X[j]\nprint Y\n";

const SQUARES: &[u8] =
    b"extent n 3\nplace p n block\nformat csr row dense > col packed\nformat vec row dense\narray A n,n csr row by p from a.mtx\narray C n,n csr row by p from a.mtx\narray Y n vec row by p zero\ndoany i 0..n j 0..n : Y[i] += A[i,j]*C[i,j]\nprint Y\n";

/// A product whose place is listed in a file that is not there.
const LISTED: &[u8] =
    b"extent n 3\nplace p n listed o.mtx\nformat csr row dense > col packed\nformat vec row dense\narray A n,n csr row by p from a.mtx\narray X n vec row by p zero\narray Y n vec row by p zero\ndoany i 0..n j 0..n : Y[i] += A[i,j]*X[j]\n";

/// A sum over the entries, and one over all points.
const SUMS: &[u8] =
    b"extent n 3\nplace p n block\nformat csr row dense > col packed\nformat vec row dense\narray A n,n csr row by p from a.mtx\narray Y n vec row by p zero\ndoany i 0..n j 0..n : Y[i] += A[i,j]\ndoany i 0..n j 0..n : Y[i] += 2\n";

/// A matrix of other sizes.
const WIDE: &[u8] =
    b"extent n 3\nextent m 4\nplace p n block\nformat csr row dense > col packed\nformat vec row dense\narray A n,m csr row by p from a.mtx\narray Y n vec row by p zero\ndoany i 0..n j 0..m : Y[i] += A[i,j]\n";

const ABSENT: &[u8] =
    b"extent n 3\nplace p n block\nformat csr row dense > col packed\narray A n,n csr row by p from b.mtx\n";

/// What `plan job.txt` answers over a job and the file `a.mtx`.
fn planned(alloc: Global, job: &[u8]) -> Result<Outcome, Fail> {
    let mut files = Items::new(alloc);
    files.push(file(alloc, b"job.txt", job)?)?;
    files.push(file(alloc, b"a.mtx", MATRIX)?)?;
    if !are_once(&files) {
        return Err(Fail::from("a name stands twice"));
    }
    let shelf = MemShelf::new(alloc, files, 16, Items::new(alloc))?;
    let words = words(alloc, &["plan", "job.txt"])?;
    Ok(counted::<Brand>(alloc, &words, shelf, Items::new(alloc), Blank::new(1))?)
}

/// A job, and the status, the text and the line with which its plans end.
const ENDINGS: &[(&[u8], u8, &[u8], &[u8])] = &[
    (
        PRODUCT,
        0,
        b"nest 1 term 1 cost 6\ndrive 1:A.row i\ndrive 1:A.col j\n",
        b"",
    ),
    (
        SQUARES,
        0,
        b"nest 1 term 1 cost 12\ndrive 1:A.row i\ndrive 1:A.col j\n",
        b"",
    ),
    (
        LISTED,
        0,
        b"nest 1 term 1 cost 6\ndrive 1:A.row i\ndrive 1:A.col j\n",
        b"",
    ),
    (
        SUMS,
        0,
        b"nest 1 term 1 cost 6\ndrive 1:A.row i\ndrive 1:A.col j\nnest 2 term 1 cost 12\nrange i\nrange j\n",
        b"",
    ),
    (WIDE, 2, b"", b"refused a.mtx:0 F1\n"),
    (ABSENT, 3, b"", b"read fault b.mtx\n"),
];

#[test]
fn plans_end_with_their_text_or_why_there_is_none(rt: HostRuntime) -> Result<(), Fail> {
    let alloc = rt.alloc();
    for (job, status, text, line) in ENDINGS {
        let seen = planned(alloc, job)?;
        assert_eq!(rt; seen.status, *status);
        assert_eq!(rt; seen.out.bytes(), *text);
        assert_eq!(rt; seen.err.bytes(), *line);
    }
    Ok(())
}
