ghost use Rattle.std.specs.Prelude.{◌≡◌, ◌<◌};

use bern_base::{Affine, Entry, Items, Matrix, NoMemory, Point, Steps, Text, Val, is_matrix};
use std::marker::Brand;
use std::sync::ledger::{Blank, Ledger};
use std::test::Fail;

#[test]
fn a_list_grows_and_gives_its_vec_back(rt: HostRuntime) -> Result<(), Fail> {
    let mut items = Items::new(rt.alloc());
    items.push(4u32)?;
    items.push(5)?;
    let copy = Items::from_slice(rt.alloc(), items.as_slice())?;
    assert_eq!(rt; copy.into_vec().as_slice(), [4, 5].as_slice());
    Ok(())
}

#[test]
fn a_text_grows_and_gives_its_vec_back(rt: HostRuntime) -> Result<(), Fail> {
    let mut text = Text::from_bytes(rt.alloc(), b"ab")?;
    text.reserve(3)?;
    text.push(b'c')?;
    text.append(b"de")?;
    assert_eq!(rt; text.into_vec().as_slice(), b"abcde".as_slice());
    Ok(())
}

#[test]
fn want_of_memory_has_its_line(rt: HostRuntime) -> Result<(), Fail> {
    assert_eq!(rt; NoMemory.to_string(rt.alloc())?.as_str(), "out of memory");
    Ok(())
}

fn tick_twice<L: Ledger>(blank: Blank)
    requires name { blank.name ≡ L.name }
    requires parts { blank.parts ≡ L.parts }
    requires some { 0 < blank.parts }
{
    let mut steps: Steps<L> = Steps::start(blank);
    steps.tick();
    steps.tick();
}

#[test]
fn a_counter_takes_no_bytes(rt: HostRuntime) {
    tick_twice::<Brand>(Blank::new(1));
    assert_eq!(rt; std::mem::size_of::<Steps<Brand>>(), 0);
}

#[test]
fn a_form_has_values_ends_and_solutions(rt: HostRuntime) {
    let form = Affine::new(5, [2, -3, 0, 1]);
    let point = Point::new([1, 2, 7, -4]);
    assert_eq!(rt; form.eval(&point), -3);
    assert_eq!(rt; form.range(&[(0, 3), (-1, 2), (0, 1), (2, 3)]), (4, 14));
    assert_eq!(rt; form.solve(0, &point, 1), Some(3));
    assert_eq!(rt; form.solve(0, &point, 2), None);
    assert_eq!(rt; form.solve(1, &point, 9), Some(-2));
    assert_eq!(rt; form.solve(1, &point, -10), None);
    assert_eq!(rt;
        form.solve(3, &point, 35_184_372_088_832),
        Some(35_184_372_088_831)
    );
}

#[test]
fn a_matrix_has_a_value_at_each_element(rt: HostRuntime) -> Result<(), Fail> {
    let mut matrix = Matrix::empty(rt.alloc(), 2, 3);
    matrix.entries.push(Entry {
        row: 0,
        col: 2,
        value: Val::new(7),
    })?;
    matrix.entries.push(Entry {
        row: 1,
        col: 0,
        value: Val::new(9),
    })?;
    if is_matrix(&matrix) {
        assert_eq!(rt; matrix.value(3).bits(), 9);
        assert_eq!(rt; matrix.value(4).bits(), 0);
        let values = matrix.values(rt.alloc())?;
        assert_eq!(rt; values.len(), 6);
        assert_eq!(rt; values.at(2).bits(), 7);
        return Ok(());
    }
    assert!(rt; false, "rising entries inside are a matrix");
    Ok(())
}
