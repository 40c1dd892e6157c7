ghost use Rattle.std.specs.Prelude.{◌≡◌, position, IfOk};
ghost use Rattle.std.specs.List.{count_by};
ghost use Rattle.bern_base.specs.Matrix.{IsMatrix};
ghost use Rattle.format_model.specs.Checks.{first_of, sizes_rule};
ghost use Rattle.formats.specs.FileRules.{order_rule};
ghost use Rattle.job_files.specs.FileOrder.{astray_rule, broken_in, broken_rule, first_broken};
ghost use Rattle.job_files.specs.PlaceLists.{is_place_of};
ghost use Rattle.job_files.specs.RowOrders.{is_order_of};
ghost use Rattle.job_files.specs.Uses.{file_of, is_array, is_of};

use bern_base::{Items, Matrix, NoMemory, Rule, Text};
use formats::{OrderError, check_astray, check_order, check_sizes};
use placement::check_listed;
use std::alloc::Global;

/// A use of a file: what is read from it.
#[derive(Debug, Drop)]
pub enum Use {
    /// The order of so many rows, for an array of a permute format.
    Order {
        file: Text,
        rows: u32,
    },
    /// An array of so many rows and columns; of a diagonal format with the offsets of its diagonals.
    Array {
        file: Text,
        rows: u32,
        cols: u32,
        diagonals: Option<Items<i64>>,
    },
    /// The places of so many indices at so many ranks.
    Place {
        file: Text,
        extent: u32,
        ranks: u32,
    },
}

impl Use {
    /// The file that is used.
    pub fn file(&self) -> &Text
        ensures { result.now ≡ file_of self.now }
    {
        match self {
            Use::Order { file, .. } => file,
            Use::Array { file, .. } => file,
            Use::Place { file, .. } => file,
        }
    }

    /// Whether an array is read from the file.
    pub fn is_array(&self) -> bool
        ensures { result ≡ is_array self.now }
    {
        matches!(self, Use::Array { .. })
    }

    /// Whether the order of so many rows is read from that file.
    fn is_order_of(&self, file: &[u8], rows: u32) -> bool
        ensures { result ≡ is_order_of file.now rows self.now }
    {
        match self {
            Use::Order {
                file: own,
                rows: count,
            } => own.as_bytes() == file && *count == rows,
            _ => false,
        }
    }

    /// Whether the places of so many indices at so many ranks are read from that file.
    fn is_place_of(&self, file: &[u8], size: u32, count: u32) -> bool
        ensures { result ≡ is_place_of file.now size count self.now }
    {
        match self {
            Use::Place {
                file: own,
                extent,
                ranks,
            } => own.as_bytes() == file && (*extent == size && *ranks == count),
            _ => false,
        }
    }

    /// The first rule that the file's matrix breaks in this use: F1 and F3 for an order of rows, F1 and F2 for an array,
    /// F6, F4 and F5 for a place.
    fn broken_rule(&self, alloc: Global, matrix: &Matrix) -> Result<Option<Rule>, NoMemory>
        requires { IsMatrix matrix.now }
        ensures { IfOk result (λ rule. rule ≡ broken_rule matrix.now self.now) }
    {
        match self {
            Use::Order { rows, .. } => broken_by_order(alloc, *rows, matrix),
            Use::Array {
                rows,
                cols,
                diagonals,
                ..
            } => Ok(broken_by_array(*rows, *cols, diagonals, matrix)),
            Use::Place { extent, ranks, .. } => Ok(check_listed(*extent, *ranks, matrix).err()),
        }
    }

    /// The same where the use is of that file; a use of another file asks nothing.
    fn broken_in(
        &self,
        alloc: Global,
        file: &[u8],
        matrix: &Matrix,
    ) -> Result<Option<Rule>, NoMemory>
        requires { IsMatrix matrix.now }
        ensures { IfOk result (λ rule. rule ≡ broken_in file.now matrix.now self.now) }
    {
        if is_of(self, file) {
            self.broken_rule(alloc, matrix)
        } else {
            Ok(None)
        }
    }
}

/// F1 where the matrix is not one column of so many rows, else F3 where it does not list each row once.
fn broken_by_order(alloc: Global, rows: u32, matrix: &Matrix) -> Result<Option<Rule>, NoMemory>
    requires { IsMatrix matrix.now }
    ensures { IfOk result (λ rule. rule ≡ order_rule rows matrix.now) }
{
    match check_order(alloc, rows, matrix) {
        Ok(_) => Ok(None),
        Err(OrderError::Broken(rule)) => Ok(Some(rule)),
        Err(OrderError::NoMemory) => Err(NoMemory),
    }
}

/// F1 where the matrix has other sizes, else F2 where it has a value off the listed diagonals.
fn broken_by_array(
    rows: u32,
    cols: u32,
    diagonals: &Option<Items<i64>>,
    matrix: &Matrix,
) -> Option<Rule>
    ensures { result ≡ first_of (sizes_rule rows cols matrix.now) (astray_rule diagonals.now matrix.now) }
{
    match check_sizes(rows, cols, matrix) {
        Ok(()) => match diagonals {
            None => None,
            Some(offsets) => check_astray(offsets.as_slice(), matrix).err(),
        },
        Err(rule) => Some(rule),
    }
}

fn is_of(wanted: &Use, file: &[u8]) -> bool
    ensures { result ≡ is_of file.now wanted.now }
{
    wanted.file().as_bytes() == file
}

/// The place of the first use of that file.
pub fn first_use(uses: &Items<Use>, file: &[u8]) -> Option<usize>
    ensures { result ≡ position (is_of file.now) uses.now }
{
    uses.as_slice()
        .iter()
        .position(|wanted| is_of(wanted, file))
}

/// The place of the first use of that file for the order of so many rows.
pub fn order_use(uses: &Items<Use>, file: &[u8], rows: u32) -> Option<usize>
    ensures { result ≡ position (is_order_of file.now rows) uses.now }
{
    uses.as_slice()
        .iter()
        .position(|wanted| wanted.is_order_of(file, rows))
}

/// The place of the first use of that file for the places of so many indices at so many ranks.
pub fn place_use(uses: &Items<Use>, file: &[u8], size: u32, ranks: u32) -> Option<usize>
    ensures { result ≡ position (is_place_of file.now size ranks) uses.now }
{
    uses.as_slice()
        .iter()
        .position(|wanted| wanted.is_place_of(file, size, ranks))
}

/// How many uses are of that file.
pub fn count_uses(uses: &Items<Use>, file: &[u8]) -> usize
    ensures { result ≡ count_by (is_of file.now) uses.now }
{
    let mut count = 0;
    'uses: for wanted in uses.as_slice() {
        if is_of(wanted, file) {
            count += 1;
        }
    }
    count
}

/// The first rule that a file's matrix breaks, over the uses of the file in their order.
pub fn first_broken(
    alloc: Global,
    uses: &Items<Use>,
    file: &[u8],
    matrix: &Matrix,
) -> Result<Option<Rule>, NoMemory>
    requires { IsMatrix matrix.now }
    ensures { IfOk result (λ rule. rule ≡ first_broken file.now matrix.now uses.now) }
{
    'uses: for wanted in uses.as_slice() {
        match wanted.broken_in(alloc, file, matrix) {
            Ok(None) => {}
            Ok(Some(rule)) => return Ok(Some(rule)),
            Err(NoMemory) => return Err(NoMemory),
        }
    }
    Ok(None)
}
