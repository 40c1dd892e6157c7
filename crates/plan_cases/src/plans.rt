use bern_base::{Axis, Items, LevelStat, Nest, NoMemory, Stats};
use job_accept::take_job;
use join_plan::{can_schedule, plan_text, schedule};
use loop_query::{PlannedTerm, Plans, terms};
use std::alloc::Global;
use std::test::Fail;

fn level(axis: Axis, ordered: bool, estimate: u64, weight: u64) -> LevelStat {
    LevelStat {
        axis,
        ordered,
        estimate,
        weight,
    }
}

/// A vector of 3 elements that are all stored.
fn dense(alloc: Global) -> Result<Stats, NoMemory> {
    let levels = vec![in alloc; level(Axis::Row, true, 3, 1)]?;
    Ok(Stats {
        levels: Items::from_vec(levels),
    })
}

/// Three entries in three compressed rows.
fn rows(alloc: Global) -> Result<Stats, NoMemory> {
    let levels = vec![in alloc; level(Axis::Row, true, 3, 1), level(Axis::Col, true, 1, 1)]?;
    Ok(Stats {
        levels: Items::from_vec(levels),
    })
}

/// Three entries in a coordinate list.
fn list(alloc: Global) -> Result<Stats, NoMemory> {
    let levels = vec![in alloc; level(Axis::Both, false, 3, 3)]?;
    Ok(Stats {
        levels: Items::from_vec(levels),
    })
}

/// A packed vector with so many entries; `bits` are the binary digits of this number.
fn packed(alloc: Global, entries: u64, bits: u64) -> Result<Stats, NoMemory> {
    let levels = vec![in alloc; level(Axis::Row, true, entries, bits)]?;
    Ok(Stats {
        levels: Items::from_vec(levels),
    })
}

/// The terms of a nest, each with its plan of least cost.
fn planned(
    alloc: Global,
    nest: &Nest,
    found: Items<loop_query::Term>,
    stats: &Items<Stats>,
) -> Result<Items<PlannedTerm>, Fail> {
    let mut planned = Items::new(alloc);
    for term in found.into_vec() {
        if !can_schedule(nest, &term, stats) {
            return Err(Fail::from("a term that cannot be scheduled"));
        }
        let (plan, cost) = schedule(alloc, nest, &term, stats)?;
        planned.push(PlannedTerm { term, plan, cost })?;
    }
    Ok(planned)
}

/// Whether the plans of a job with one nest print as this text.
fn prints(alloc: Global, job: &[u8], stats: Vec<Stats>, text: &[u8]) -> Result<bool, Fail> {
    let job = take_job(alloc, job)?;
    let stats = Items::from_vec(stats);
    let nest = job.nests.get(0).ok_or("no nest")?;
    let found = terms(alloc, &job, nest)?;
    let terms = planned(alloc, nest, found, &stats)?;
    let nests = Items::from_vec(vec![in alloc; terms]?);
    let printed = plan_text(alloc, &job, &Plans { nests })?;
    Ok(printed.as_bytes() == text)
}

#[test]
fn a_product_drives_the_rows_and_their_entries(rt: HostRuntime) -> Result<(), Fail> {
    let alloc = rt.alloc();
    let job =
        b"extent n 3\nplace p n block\nformat csr row dense > col packed\nformat vec row dense\narray A n,n csr row by p zero\narray X n vec row by p zero\narray Y n vec row by p zero\ndoany i 0..n j 0..n : Y[i] += A[i,j]*X[j]\n";
    let stats = vec![in alloc; rows(alloc)?, dense(alloc)?, dense(alloc)?]?;
    let text = b"nest 1 term 1 cost 6\ndrive 1:A.row i\ndrive 1:A.col j\n";
    assert!(&rt; prints(alloc, job, stats, text)?);
    Ok(())
}

#[test]
fn the_other_matrix_is_searched(rt: HostRuntime) -> Result<(), Fail> {
    let alloc = rt.alloc();
    let job =
        b"extent n 3\nplace p n block\nformat csr row dense > col packed\nformat vec row dense\narray A n,n csr row by p zero\narray C n,n csr row by p zero\narray Y n vec row by p zero\ndoany i 0..n j 0..n : Y[i] += A[i,j]*C[i,j]\n";
    let stats = vec![in alloc; rows(alloc)?, rows(alloc)?, dense(alloc)?]?;
    let text = b"nest 1 term 1 cost 12\ndrive 1:A.row i\ndrive 1:A.col j\n";
    assert!(&rt; prints(alloc, job, stats, text)?);
    Ok(())
}

#[test]
fn a_coordinate_list_binds_both_variables(rt: HostRuntime) -> Result<(), Fail> {
    let alloc = rt.alloc();
    let job =
        b"extent n 3\nplace p n block\nformat coo row col list\nformat vec row dense\narray A n,n coo row by p zero\narray X n vec row by p zero\narray Y n vec row by p zero\ndoany i 0..n j 0..n : Y[i] += A[i,j]*X[j]-2*X[j]\n";
    let stats = vec![in alloc; list(alloc)?, dense(alloc)?, dense(alloc)?]?;
    let text = b"nest 1 term 1 cost 3\nflat 1:A i j\nnest 1 term 2 cost 12\nrange i\nrange j\n";
    assert!(&rt; prints(alloc, job, stats, text)?);
    Ok(())
}

/// To merge 4 and 2 indices costs 6, to search 2 of them among 4 costs `2 + 2 * 3`, and 4 among 2 `4 + 4 * 2`.
#[test]
fn two_packed_vectors_are_merged(rt: HostRuntime) -> Result<(), Fail> {
    let alloc = rt.alloc();
    let job =
        b"extent n 3\nplace p n block\nformat some row packed\nformat vec row dense\narray V n some row by p zero\narray W n some row by p zero\narray Y n vec row by p zero\ndoany i 0..n : Y[i] += V[i]*W[i]\n";
    let stats = vec![in alloc; packed(alloc, 4, 3)?, packed(alloc, 2, 2)?, dense(alloc)?]?;
    let text = b"nest 1 term 1 cost 6\nmerge 1:V.row 2:W.row i\n";
    assert!(&rt; prints(alloc, job, stats, text)?);
    Ok(())
}
