ghost use Rattle.std.specs.Prelude.{◌≡◌, ◌+◌, ◌*◌, ◌<◌, ◌++◌, length, OnOk, OnErr};
ghost use Rattle.std.specs.List.{flat_map, range_with_len};
ghost use Rattle.std.specs.Io.{StartsWith};
ghost use Rattle.mm_profile.specs.ArrayText.{value_line, column_text, sizes_line, array_head, array_text};

use bern_base::{Items, NoMemory, Text, Val};
use itoa::Buffer;

const HEAD: &[u8] = b"%%MatrixMarket matrix array integer general\n% ";

/// Appends the printed text of an array: the Matrix Market head, a comment with the name, the sizes, and one value a line, column by column.
///
/// `values` are by element number, which is `row * cols + col`. After want of memory `out` is as before.
pub fn write_array(
    name: &Text,
    rows: u32,
    cols: u32,
    values: &Items<Val>,
    out: &mut Text,
) -> Result<(), NoMemory>
    requires { length values.now ≡ rows * cols }
    ensures ok { OnOk result (out.new ≡ out.old ++ array_text name.now rows cols values.now) }
    ensures err { OnErr result (out.new ≡ out.old) }
{
    let before = out.len();
    match append_array(name, rows, cols, values.as_slice(), out) {
        Ok(()) => Ok(()),
        Err(fault) => {
            out.truncate(before);
            Err(fault)
        }
    }
}

fn append_array(
    name: &Text,
    rows: u32,
    cols: u32,
    values: &[Val],
    out: &mut Text,
) -> Result<(), NoMemory>
    requires { length values.now ≡ rows * cols }
    ensures ok { OnOk result (out.new ≡ out.old ++ array_text name.now rows cols values.now) }
    ensures kept { StartsWith out.new out.old }
{
    append_head(name, rows, cols, out)?;
    append_columns(rows, cols, values, out)
}

fn append_head(name: &Text, rows: u32, cols: u32, out: &mut Text) -> Result<(), NoMemory>
    ensures ok { OnOk result (out.new ≡ out.old ++ array_head name.now rows cols) }
    ensures kept { StartsWith out.new out.old }
{
    out.append(HEAD)?;
    out.append(name.as_bytes())?;
    out.append(b"\n")?;
    append_sizes(rows, cols, out)?;
    Ok(())
}

fn append_sizes(rows: u32, cols: u32, out: &mut Text) -> Result<(), NoMemory>
    ensures ok { OnOk result (out.new ≡ out.old ++ sizes_line rows cols) }
    ensures kept { StartsWith out.new out.old }
{
    let mut digits = Buffer::new();
    out.append(digits.format(rows).as_bytes())?;
    out.append(b" ")?;
    out.append(digits.format(cols).as_bytes())?;
    out.append(b"\n")
}

fn append_columns(rows: u32, cols: u32, values: &[Val], out: &mut Text) -> Result<(), NoMemory>
    requires { length values.now ≡ rows * cols }
    ensures ok { OnOk result (out.new ≡ out.old ++ flat_map (column_text rows cols values.now) (range_with_len 0 cols)) }
    ensures kept { StartsWith out.new out.old }
{
    for col in 0..cols {
        append_column(rows, cols, values, col, out)?;
    }
    Ok(())
}

fn append_column(
    rows: u32,
    cols: u32,
    values: &[Val],
    col: u32,
    out: &mut Text,
) -> Result<(), NoMemory>
    requires sizes { length values.now ≡ rows * cols }
    requires within { col < cols }
    ensures ok { OnOk result (out.new ≡ out.old ++ column_text rows cols values.now col) }
    ensures kept { StartsWith out.new out.old }
{
    for row in 0..rows {
        append_value(values[row as usize * cols as usize + col as usize], out)?;
    }
    Ok(())
}

fn append_value(value: Val, out: &mut Text) -> Result<(), NoMemory>
    ensures ok { OnOk result (out.new ≡ out.old ++ value_line value) }
    ensures kept { StartsWith out.new out.old }
{
    let mut digits = Buffer::new();
    out.append(digits.format(value.signed()).as_bytes())?;
    out.push(b'\n')
}
