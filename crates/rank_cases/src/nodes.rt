ghost use Rattle.std.specs.Prelude.{◌≡◌};

use bern_base::{Affine, Entry, Factor, Items, Matrix, Ref, Val};
use placement::Cyclic;
use rank_node::{array_read, asked_sets, dense_values, values_at};
use std::test::Fail;

fn entry(row: u32, col: u32, value: u64) -> Entry
    ensures { result ≡ record { row = row; col = col; value = value } }
{
    Entry {
        row,
        col,
        value: Val::new(value),
    }
}

/// Rank 0 of two ranks, to which five indices are dealt one at a time, reads the columns 1, 2 and 3.
#[test]
fn a_rank_asks_each_owner_for_what_it_reads_there(rt: HostRuntime) -> Result<(), Fail> {
    let alloc = rt.alloc();
    let place = Cyclic::new(5, 2, 1);
    let entries = [
        entry(0, 3, 1),
        entry(0, 2, 1),
        entry(1, 1, 0),
        entry(1, 3, 4),
    ];
    let sets = asked_sets(alloc, entries.as_slice(), 5, &place, 0, 2)?;
    assert_eq!(rt; sets.len(), 2);
    match (sets.get(0), sets.get(1)) {
        (Some(own), Some(other)) => {
            assert!(rt; own.is_empty());
            assert_eq!(rt; other.as_slice(), [1, 3].as_slice());
        }
        _ => assert!(rt; false),
    }
    let values = values_at(
        alloc,
        [1, 3].as_slice(),
        &place,
        1,
        [Val::new(7), Val::new(9)].as_slice(),
    )?;
    assert_eq!(rt; values.as_slice(), [Val::new(7), Val::new(9)].as_slice());
    Ok(())
}

#[test]
fn entries_of_one_element_are_added(rt: HostRuntime) -> Result<(), Fail> {
    let alloc = rt.alloc();
    let entries = [
        entry(0, 1, 3),
        entry(1, 0, 5),
        entry(1, 0, 18_446_744_073_709_551_615),
    ];
    let matrix = Matrix {
        rows: 2,
        cols: 2,
        entries: Items::from_slice(alloc, entries.as_slice())?,
    };
    let values = dense_values(alloc, &matrix)?;
    assert_eq!(rt;
        values.as_slice(),
        [Val::new(0), Val::new(3), Val::new(4), Val::new(0)].as_slice()
    );
    Ok(())
}

#[test]
fn a_factor_reads_an_array_or_none(rt: HostRuntime) -> Result<(), Fail> {
    let nothing = Affine::new(0, [0, 0, 0, 0]);
    let read = Factor::Read(Ref {
        array: 3,
        row: nothing,
        col: nothing,
    });
    let factors = Items::from_vec(vec![in rt.alloc(); Factor::Num(Val::new(2)), read]?);
    assert_eq!(rt; array_read(&factors, 0), None);
    assert_eq!(rt; array_read(&factors, 1), Some(3));
    assert_eq!(rt; array_read(&factors, 2), None);
    Ok(())
}
