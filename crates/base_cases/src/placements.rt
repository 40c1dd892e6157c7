ghost use Rattle.std.specs.Prelude.{◌≡◌, ◌<◌, length, IfOk};

use bern_base::{
    Axis, Entry, Items, MOST_RANKS, MOST_SIDE, Matrix, NoMemory, Rule, Val, is_matrix,
};
use placement::{
    AnyPlace, Cyclic, Listed, ListedError, Placement, SharedPlace, blocks_are_dealt_in_turn, deal,
    elements_are_owned_once, parts_share_a_matrix, split,
};
use std::alloc::Global;
use std::sync::Arc;
use std::test::Fail;

/// The index again, by the laws alone.
fn there_and_back<P: Placement>(place: &P, i: u32) -> u32
    requires { i < length (P.triples place.now) }
    ensures { result ≡ i }
{
    place.global(place.owner(i), place.local(i))
}

#[test]
fn blocks_of_two_are_dealt_to_three_ranks(rt: HostRuntime) {
    let place = Cyclic::new(10, 3, 2);
    let owners = [0, 0, 1, 1, 2, 2, 0, 0, 1, 1];
    let locals = [0, 1, 0, 1, 0, 1, 2, 3, 2, 3];
    for i in 0..10u32 {
        assert_eq!(rt; place.owner(i), owners[i as usize]);
        assert_eq!(rt; place.local(i), locals[i as usize]);
        assert_eq!(rt; there_and_back(&place, i), i);
    }
    let owned = place.owned(0);
    assert_eq!(rt; (owned, place.owned(1), place.owned(2)), (4, 4, 2));
    assert_eq!(rt; place.global(0, 3), 7);
}

#[test]
fn a_rank_may_own_nothing(rt: HostRuntime) {
    let place = Cyclic::block(3, 64);
    assert_eq!(rt; (place.owner(2), place.local(2)), (2, 0));
    assert_eq!(rt;
        (place.owned(2), place.owned(3), place.owned(63)),
        (1, 0, 0)
    );
}

#[test]
fn nothing_overflows_at_the_limits(rt: HostRuntime) {
    let fine = Cyclic::new(MOST_SIDE, MOST_RANKS, 1);
    assert_eq!(rt;
        (fine.owner(4_194_303), fine.local(4_194_303)),
        (63, 65_535)
    );
    assert_eq!(rt; fine.owned(63), 65_536);
    let coarse = Cyclic::new(MOST_SIDE, MOST_RANKS, MOST_SIDE);
    assert_eq!(rt;
        (coarse.owner(4_194_303), coarse.local(4_194_303)),
        (0, 4_194_303)
    );
    assert_eq!(rt; (coarse.owned(0), coarse.owned(63)), (4_194_304, 0));
}

fn entry(row: u32, col: u32, value: u64) -> Entry {
    Entry {
        row,
        col,
        value: Val::new(value),
    }
}

/// Four rows, three columns, and an entry with the value 0.
fn sample(alloc: Global) -> Result<Matrix, NoMemory>
    ensures { IfOk result (λ m. (m.rows ≡ 4) × (m.cols ≡ 3)) }
{
    let entries = [
        entry(0, 0, 5),
        entry(0, 2, 0),
        entry(1, 1, 7),
        entry(2, 0, 1),
        entry(3, 2, 9),
    ];
    Ok(Matrix {
        rows: 4,
        cols: 3,
        entries: Items::from_slice(alloc, entries.as_slice())?,
    })
}

#[test]
fn a_split_by_rows_keeps_the_zero_and_counts_rows_anew(rt: HostRuntime) -> Result<(), Fail> {
    let matrix = sample(rt.alloc())?;
    assert!(rt; is_matrix(&matrix));
    let part = split(rt.alloc(), &matrix, &Cyclic::new(4, 2, 1), Axis::Row, 0)?;
    assert_eq!(rt; (part.matrix.rows, part.matrix.cols), (2, 3));
    assert_eq!(rt;
        part.matrix.entries.as_slice(),
        [entry(0, 0, 5), entry(0, 2, 0), entry(1, 0, 1)].as_slice()
    );
    assert_eq!(rt; part.globals.as_slice(), [0, 2].as_slice());
    Ok(())
}

#[test]
fn a_split_by_columns_keeps_the_order_of_the_rows(rt: HostRuntime) -> Result<(), Fail> {
    let matrix = sample(rt.alloc())?;
    assert!(rt; is_matrix(&matrix));
    let part = split(rt.alloc(), &matrix, &Cyclic::block(3, 2), Axis::Col, 1)?;
    assert_eq!(rt; (part.matrix.rows, part.matrix.cols), (4, 1));
    assert_eq!(rt;
        part.matrix.entries.as_slice(),
        [entry(0, 0, 0), entry(3, 0, 9)].as_slice()
    );
    assert_eq!(rt; part.globals.as_slice(), [2].as_slice());
    Ok(())
}

#[test]
fn the_part_of_a_rank_without_indices_is_empty(rt: HostRuntime) -> Result<(), Fail> {
    let matrix = sample(rt.alloc())?;
    assert!(rt; is_matrix(&matrix));
    let part = split(rt.alloc(), &matrix, &Cyclic::block(4, 64), Axis::Row, 63)?;
    assert_eq!(rt; (part.matrix.rows, part.matrix.cols), (0, 3));
    assert!(rt; part.matrix.entries.is_empty() && part.globals.is_empty());
    Ok(())
}

/// The owner and the local number of each index.
fn seats<P: Placement>(alloc: Global, place: &P, extent: u32) -> Result<Items<(u32, u32)>, NoMemory>
    requires { extent ≡ length (P.triples place.now) }
{
    let mut seats = Items::new(alloc);
    for i in 0..extent {
        let seat = place.seat(i);
        seats.push((seat.owner, seat.local))?;
    }
    Ok(seats)
}

/// A matrix with the value 0 at these places.
fn listing(alloc: Global, rows: u32, cols: u32, places: &[(u32, u32)]) -> Result<Matrix, NoMemory> {
    let mut entries = Items::new(alloc);
    for (row, col) in places {
        entries.push(entry(*row, *col, 0))?;
    }
    Ok(Matrix {
        rows,
        cols,
        entries,
    })
}

fn rule_of(built: Result<Listed, ListedError>) -> Option<Rule> {
    match built {
        Ok(_) => None,
        Err(ListedError::Broken(rule)) => Some(rule),
        Err(ListedError::NoMemory) => None,
    }
}

#[test]
fn a_listed_place_is_refused_by_its_first_rule(rt: HostRuntime) -> Result<(), Fail> {
    let none = listing(rt.alloc(), 3, 2, [(0, 0), (2, 1)].as_slice())?;
    assert!(rt; is_matrix(&none));
    let rule = rule_of(Listed::build(rt.alloc(), &none, 3, 2));
    assert_eq!(rt; rule, Some(Rule::F4));
    let two = listing(
        rt.alloc(),
        3,
        2,
        [(0, 0), (1, 0), (1, 1), (2, 1)].as_slice(),
    )?;
    assert!(rt; is_matrix(&two));
    let rule = rule_of(Listed::build(rt.alloc(), &two, 3, 2));
    assert_eq!(rt; rule, Some(Rule::F5));
    let rule = rule_of(Listed::build(rt.alloc(), &two, 3, 3));
    assert_eq!(rt; rule, Some(Rule::F6));
    Ok(())
}

#[test]
fn a_listed_place_has_its_locals_by_rising_index(rt: HostRuntime) -> Result<(), Fail> {
    let places = [(0, 0), (1, 0), (2, 1), (3, 0)];
    let matrix = listing(rt.alloc(), 4, 3, places.as_slice())?;
    assert!(rt; is_matrix(&matrix));
    match Listed::build(rt.alloc(), &matrix, 4, 3) {
        Ok(place) => {
            let seats = seats(rt.alloc(), &place, 4)?;
            assert_eq!(rt;
                seats.as_slice(),
                [(0, 0), (0, 1), (1, 0), (0, 2)].as_slice()
            );
            assert_eq!(rt; there_and_back(&place, 3), 3);
            assert_eq!(rt; (place.owned(0), place.owned(1), place.owned(2)), (3, 1, 0));
        }
        Err(_) => assert!(rt; false),
    }
    Ok(())
}

#[test]
fn a_shared_place_answers_as_the_place_within(rt: HostRuntime) -> Result<(), Fail> {
    let matrix = listing(rt.alloc(), 3, 2, [(0, 0), (1, 0), (2, 1)].as_slice())?;
    assert!(rt; is_matrix(&matrix));
    match Listed::build(rt.alloc(), &matrix, 3, 2) {
        Ok(place) => {
            let mut places = Items::new(rt.alloc());
            places.push(AnyPlace::Cyclic(Cyclic::new(10, 3, 2)))?;
            places.push(AnyPlace::Listed(place))?;
            let places = Arc::new(rt.alloc(), places)?;
            let other = SharedPlace::new(Arc::try_clone(&places)?, 0);
            let place = SharedPlace::new(places, 1);
            let seats = seats(rt.alloc(), &place, 3)?;
            assert_eq!(rt; seats.as_slice(), [(0, 0), (0, 1), (1, 0)].as_slice());
            assert_eq!(rt; (place.owned(0), there_and_back(&place, 2)), (2, 2));
            assert_eq!(rt; (other.owner(7), other.local(7)), (0, 3));
        }
        Err(_) => assert!(rt; false),
    }
    Ok(())
}

#[test]
fn a_matrix_is_dealt_to_all_ranks(rt: HostRuntime) -> Result<(), Fail> {
    let matrix = sample(rt.alloc())?;
    assert!(rt; is_matrix(&matrix));
    let parts = deal(rt.alloc(), &matrix, &Cyclic::new(4, 2, 1), Axis::Row, 2)?;
    let parts = parts.as_slice();
    assert_eq!(rt; parts.len(), 2);
    assert_eq!(rt;
        parts[0].matrix.entries.as_slice(),
        [entry(0, 0, 5), entry(0, 2, 0), entry(1, 0, 1)].as_slice()
    );
    assert_eq!(rt;
        parts[1].matrix.entries.as_slice(),
        [entry(0, 1, 7), entry(1, 2, 9)].as_slice()
    );
    assert_eq!(rt; parts[1].globals.as_slice(), [1, 3].as_slice());
    Ok(())
}
