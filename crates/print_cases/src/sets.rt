use bern_base::{Items, NeedSet, Needs, NoMemory};
use gather_print::sets_text;
use job_accept::take_job;
use std::alloc::Global;
use std::test::Fail;

/// Two nests over vectors of three elements.
const JOB: &[u8] = b"extent n 3
place p n block
format vec row dense
array X n vec row by p zero
array Y n vec row by p zero
doany i 0..n : Y[i] += X[i]
doany i 0..n : X[i] += Y[i]
";

/// A receive set.
fn set(
    alloc: Global,
    nest: u32,
    owner: u32,
    array: u32,
    elements: &[u32],
) -> Result<NeedSet, NoMemory> {
    let mut items = Items::new(alloc);
    for element in elements {
        items.push(*element)?;
    }
    Ok(NeedSet {
        nest,
        owner,
        array,
        elements: items,
    })
}

/// Whether the sets of two ranks print as this text, where rank 0 has these and rank 1 those.
fn prints(
    alloc: Global,
    first: Vec<NeedSet>,
    second: Vec<NeedSet>,
    text: &[u8],
) -> Result<bool, Fail> {
    let job = take_job(alloc, JOB)?;
    let first = Needs {
        sets: Items::from_vec(first),
    };
    let second = Needs {
        sets: Items::from_vec(second),
    };
    let needs = Items::from_vec(vec![in alloc; first, second]?);
    let printed = sets_text(alloc, &job, &needs)?;
    Ok(printed.as_bytes() == text)
}

#[test]
fn sets_come_by_nest_and_then_by_rank(rt: HostRuntime) -> Result<(), Fail> {
    let alloc = rt.alloc();
    let first = vec![in alloc;
        set(alloc, 0, 1, 0, &[2])?,
        set(alloc, 1, 1, 0, &[2])?,
        set(alloc, 1, 1, 1, &[2])?,
    ]?;
    let second = vec![in alloc; set(alloc, 0, 0, 0, &[0, 1])?]?;
    let text = b"nest 1 rank 0 from 1 X 2
nest 1 rank 1 from 0 X 0 1
nest 2 rank 0 from 1 X 2
nest 2 rank 0 from 1 Y 2
";
    assert!(rt; prints(alloc, first, second, text)?);
    Ok(())
}

#[test]
fn ranks_that_receive_nothing_have_no_line(rt: HostRuntime) -> Result<(), Fail> {
    let alloc = rt.alloc();
    assert!(rt; prints(alloc, Vec::new(alloc), Vec::new(alloc), b"")?);
    Ok(())
}
