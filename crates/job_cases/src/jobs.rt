use bern_base::{Axis, MOST_JOB_BYTES, Rule};
use job_accept::take_job;
use job_rules::CheckError;
use std::alloc::Global;
use std::test::Fail;

/// The line and the rule by which a text is refused, if it is.
fn refusal_of(alloc: Global, text: &[u8]) -> Result<Option<(u64, Rule)>, Fail> {
    match take_job(alloc, text) {
        Ok(_) => Ok(None),
        Err(CheckError::Refused { line, rule }) => Ok(Some((line, rule))),
        Err(CheckError::NoMemory) => Err(Fail::from(CheckError::NoMemory)),
    }
}

#[test]
fn the_first_line_that_is_refused_is_told(rt: HostRuntime) -> Result<(), Fail> {
    let cases: [(&'static [u8], Option<(u64, Rule)>); 7] = [
        (b"extent n 3\nplace l n listed owners.txt\n", None),
        (b"format d diagonal -1 0 1\n", None),
        (b"format s permute order.txt row dense > col packed\n", None),
        (
            b"extent n 3\nplace n n listed owners.txt\n",
            Some((2, Rule::J3)),
        ),
        (
            b"extent n 3\nplace l n listed owners.txt\nextent\n",
            Some((3, Rule::J2)),
        ),
        (b"extent n 3\n\nprint W\nextent\n", Some((3, Rule::J4))),
        (b"", None),
    ];
    for (text, refusal) in cases {
        assert_eq!(&rt; refusal_of(rt.alloc(), text)?, refusal);
    }
    Ok(())
}

#[test]
fn a_place_has_the_number_of_arrays_before_it(rt: HostRuntime) -> Result<(), Fail> {
    let text =
        b"extent n 3\nplace p n listed o.mtx\nformat vec row dense\narray X n vec row by p zero\narray Y n vec row by p zero\nplace q n block\n";
    let job = take_job(rt.alloc(), text)?;
    let first = job.places.get(0).ok_or("no place")?;
    let second = job.places.get(1).ok_or("no place")?;
    assert_eq!(&rt; (first.arrays_before, second.arrays_before), (0, 2));
    Ok(())
}

#[test]
fn a_job_that_is_too_long_is_refused_as_a_whole(rt: HostRuntime) -> Result<(), Fail> {
    let mut text = vec![in rt.alloc(); b'#'; MOST_JOB_BYTES + 1]?;
    assert_eq!(&rt;
        refusal_of(rt.alloc(), text.as_slice())?,
        Some((0, Rule::J1))
    );
    text.truncate(MOST_JOB_BYTES);
    assert_eq!(&rt; refusal_of(rt.alloc(), text.as_slice())?, None);
    Ok(())
}

#[test]
fn an_accepted_job_has_numbers_for_names(rt: HostRuntime) -> Result<(), Fail> {
    let text =
        b"extent n 3\nplace p n block\nformat csr row dense > col packed\nformat vec row dense\narray A n,n csr row by p from a.mtx\narray X n vec row by p from x.mtx\narray Y n vec row by p zero\ndoany i 0..n j 1..n where i<j : Y[i] += 2*A[i,n-j]*X[j]\ndoany i 0..n : X[i] = Y[i]\nprint Y\n";
    let job = take_job(rt.alloc(), text)?;
    assert_eq!(&rt; job.prints.as_slice(), [2].as_slice());
    assert_eq!(&rt; job.turns.as_slice(), [0, 1].as_slice());
    let array = job.arrays.get(0).ok_or("no array")?;
    assert_eq!(&rt; (array.dims, array.rows, array.cols), (2, 3, 3));
    assert!(&rt; array.axis == Axis::Row);
    let nest = job.nests.get(0).ok_or("no nest")?;
    assert_eq!(&rt; (nest.line, nest.target.array), (8, 2));
    let span = nest.vars.get(1).ok_or("no variable")?;
    assert_eq!(&rt; (span.lo, span.hi), (1, 3));
    let guard = nest.guards.get(0).ok_or("no guard")?;
    assert_eq!(&rt; guard.left.coefficients(), &[1, -1, 0, 0]);
    Ok(())
}
