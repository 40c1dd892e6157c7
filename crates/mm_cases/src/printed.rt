use bern_base::{Items, Text, Val};
use mm_text::{printed_arrays_are_read, write_array};
use std::test::Fail;

#[test]
fn an_array_is_printed_column_by_column(rt: HostRuntime) -> Result<(), Fail> {
    printed_arrays_are_read();
    let name = Text::from_bytes(rt.alloc(), b"D")?;
    let values = [
        Val::new(1),
        Val::new(u64::MAX),
        Val::new(0),
        Val::new(1 << 63),
        Val::new(7),
        Val::new(20),
    ];
    let values = Items::from_slice(rt.alloc(), &values)?;
    let mut out = Text::new(rt.alloc());
    if values.len() == 6 {
        write_array(&name, 2, 3, &values, &mut out)?;
    }
    let due =
        b"%%MatrixMarket matrix array integer general\n% D\n2 3\n1\n-9223372036854775808\n-1\n7\n0\n20\n";
    assert_eq!(rt; out.as_bytes(), due.as_slice());
    Ok(())
}
