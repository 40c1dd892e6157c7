ghost use Rattle.std.specs.Prelude.{◌≡◌};
ghost use Rattle.bern_base.specs.Rules.{rule_name};

use crate::text::Text;

/// The rule that an input breaks: of words (C), of a job (J), of a matrix file (M), of a file for its use (F), or of what is not built yet (U).
#[derive(Clone, Copy, Debug, PartialEq, Eq)]
pub enum Rule {
    /// There is no word, or the first one is no command.
    C1,
    /// The command has another number of words.
    C2,
    /// RANKS is not a number from 1 to 64 in plain digits.
    C3,
    /// SEED is not a number below 2^64 in plain digits.
    C4,
    /// The job has more than 1,048,576 bytes.
    J1,
    /// The line has no form.
    J2,
    /// A declared name is declared before, a loop variable has a declared name, or an array is printed twice.
    J3,
    /// A name is not known.
    J4,
    /// A name is of another kind than its place needs.
    J5,
    /// The format has another number of dimensions than the array, or cannot be split along the axis.
    J6,
    /// The extent of the split axis is not that of the place.
    J7,
    /// A nest has a variable twice.
    J8,
    /// A reference has another number of subscripts than its array has dimensions.
    J9,
    /// A subscript leaves its extent at some point of the box.
    J10,
    /// The target of a nest, or a printed array, is not of an all-dense format.
    J11,
    /// The target's array is read elsewhere than at the target, or is read in a nest that is not one-to-one.
    J12,
    /// A nest with `=` is not one-to-one: two of its points may write one element.
    J13,
    /// A reference to a sparse array does not lie where the target lies.
    J14,
    /// A quantity of the job is past its limit.
    J15,
    /// The file has no banner.
    M1,
    /// The banner names a format, field or symmetry that is not read.
    M2,
    /// The size line is missing, or is no list of its numbers.
    M3,
    /// A size is past its limit.
    M4,
    /// A symmetric matrix is not square.
    M5,
    /// An entry line has another number of words, or a word is not spelled as its kind.
    M6,
    /// An index is 0 or above its size.
    M7,
    /// A value is below -2^63 or above 2^64 - 1.
    M8,
    /// A skew-symmetric file has a value other than 0 on the diagonal.
    M9,
    /// The file ends before its last entry.
    M10,
    /// There is an entry line more than are due.
    M11,
    /// The file has more than 67,108,864 bytes.
    M12,
    /// The matrix has other sizes than its use asks for.
    F1,
    /// An entry lies off the listed diagonals.
    F2,
    /// The file does not list each row once.
    F3,
    /// The file gives some index no owner.
    F4,
    /// The file gives some index two owners.
    F5,
    /// The file names an owner that is no rank.
    F6,
    /// All arrays together weigh more than 16,777,216.
    F7,
    /// The command is not built yet.
    U1,
    /// The form is not built yet.
    U2,
}

impl Rule {
    /// The printed name.
    pub fn name(self) -> &'static str
        ensures { result.now ≡ rule_name self }
    {
        match self {
            Rule::C1 => "C1",
            Rule::C2 => "C2",
            Rule::C3 => "C3",
            Rule::C4 => "C4",
            Rule::J1 => "J1",
            Rule::J2 => "J2",
            Rule::J3 => "J3",
            Rule::J4 => "J4",
            Rule::J5 => "J5",
            Rule::J6 => "J6",
            Rule::J7 => "J7",
            Rule::J8 => "J8",
            Rule::J9 => "J9",
            Rule::J10 => "J10",
            Rule::J11 => "J11",
            Rule::J12 => "J12",
            Rule::J13 => "J13",
            Rule::J14 => "J14",
            Rule::J15 => "J15",
            Rule::M1 => "M1",
            Rule::M2 => "M2",
            Rule::M3 => "M3",
            Rule::M4 => "M4",
            Rule::M5 => "M5",
            Rule::M6 => "M6",
            Rule::M7 => "M7",
            Rule::M8 => "M8",
            Rule::M9 => "M9",
            Rule::M10 => "M10",
            Rule::M11 => "M11",
            Rule::M12 => "M12",
            Rule::F1 => "F1",
            Rule::F2 => "F2",
            Rule::F3 => "F3",
            Rule::F4 => "F4",
            Rule::F5 => "F5",
            Rule::F6 => "F6",
            Rule::F7 => "F7",
            Rule::U1 => "U1",
            Rule::U2 => "U2",
        }
    }
}

/// What is refused, and by which rule. Lines count from 1; line 0 stands for the file as a whole.
#[derive(Debug, Drop)]
pub enum Refusal {
    Words { rule: Rule },
    File { file: Text, line: u64, rule: Rule },
}
