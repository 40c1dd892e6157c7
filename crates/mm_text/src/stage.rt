ghost use Rattle.std.specs.Prelude.{◌≡◌, ◌+◌, ◌^◌, ◌<◌, ◌≤◌, [], length, false, IsTrue, IfOk};
ghost use Rattle.bern_base.specs.Matrix.{IsMatrix};
ghost use Rattle.mm_profile.specs.Lines.{words};
ghost use Rattle.mm_profile.specs.Profile.{is_skipped};
ghost use Rattle.mm_text.specs.Stages.{outcome, is_numbered, Steps, Leaves, Gives};

use crate::banner::banner_of;
use crate::error::{LineError, MmError};
use crate::size_line::head_of;
use crate::table::Table;
use crate::word_list::is_skipped;
use bern_base::{Matrix, NoMemory, Rule};
use mm_profile::Kind;
use std::alloc::Global;

/// What is known of a file so far.
#[derive(Drop)]
pub(crate) enum Stage {
    Start,
    /// Line 1 is read, and the size line is due.
    Size(Kind),
    /// The size line is read.
    Entries(Table),
    /// The first refusal is known.
    Refused { line: u64, rule: Rule },
}

/// The stage after line 1.
fn after_banner(line: &[u8]) -> Stage
    ensures steps { Steps Stage.Start 1 line.now result }
    ensures numbered { IsTrue (is_numbered result 2) }
{
    match banner_of(line) {
        Ok(kind) => Stage::Size(kind),
        Err(rule) => Stage::Refused { line: 1, rule },
    }
}

/// The stage after the size line.
fn after_sizes(
    alloc: Global,
    kind: Kind,
    number: u64,
    line: &[u8],
    to_come: usize,
) -> Result<Stage, NoMemory>
    requires { is_skipped (words line.now) ≡ false }
    ensures steps { IfOk result (λ after. Steps (Stage.Size kind) number line.now after) }
    ensures numbered { IfOk result (λ after. IsTrue (is_numbered after (number + 1))) }
{
    match head_of(kind, line) {
        Ok(head) => match Table::new(alloc, head, to_come) {
            Ok(table) => Ok(Stage::Entries(table)),
            Err(NoMemory) => Err(NoMemory),
        },
        Err(rule) => Ok(Stage::Refused { line: number, rule }),
    }
}

/// The stage after a line that follows the size line.
fn after_entry(table: Table, number: u64, line: &[u8]) -> Result<Stage, NoMemory>
    ensures steps { IfOk result (λ after. Steps (Stage.Entries table) number line.now after) }
    ensures numbered { IfOk result (λ after. IsTrue (is_numbered after (number + 1))) }
{
    let mut table = table;
    match table.take_any(line) {
        Ok(()) => Ok(Stage::Entries(table)),
        Err(LineError::Broken(rule)) => Ok(Stage::Refused { line: number, rule }),
        Err(LineError::NoMemory) => Err(NoMemory),
    }
}

impl Stage {
    /// The stage after a line, where `to_come` bytes are known to come after it.
    pub(crate) fn step(
        self,
        alloc: Global,
        number: u64,
        line: &[u8],
        to_come: usize,
    ) -> Result<Stage, NoMemory>
        requires { IsTrue (is_numbered self number) }
        ensures steps { IfOk result (λ after. Steps self number line.now after) }
        ensures numbered { IfOk result (λ after. IsTrue (is_numbered after (number + 1))) }
    {
        match self {
            Stage::Start => Ok(after_banner(line)),
            Stage::Refused { line: first, rule } => Ok(Stage::Refused { line: first, rule }),
            Stage::Size(kind) => {
                if is_skipped(line) {
                    return Ok(Stage::Size(kind));
                }
                after_sizes(alloc, kind, number, line, to_come)
            }
            Stage::Entries(table) => after_entry(table, number, line),
        }
    }

    /// Takes all lines that end in a piece, once the size line is read. Gives the number of the line after them, and what is left of the piece.
    pub(crate) fn take_lines<'a>(
        self,
        number: u64,
        piece: &'a [u8],
    ) -> Result<(Stage, u64, &'a [u8]), NoMemory>
        requires numbered { IsTrue (is_numbered self number) }
        requires fits { number + length piece.now < 2 ^ 64 }
        ensures reads { IfOk result (λ left. Leaves self number piece.now left.0 left.1 left.2.now) }
        ensures numbered { IfOk result (λ left. IsTrue (is_numbered left.0 left.1)) }
        ensures number { IfOk result (λ left. left.1 + length left.2.now ≤ number + length piece.now) }
        ensures shorter { IfOk result (λ left. length left.2.now ≤ length piece.now) }
    {
        let Stage::Entries(mut table) = self else {
            return Ok((self, number, piece));
        };
        match table.take_lines(number, piece) {
            Ok((next, rest)) => Ok((Stage::Entries(table), next, rest)),
            Err(MmError::Broken { line, rule }) => Ok((Stage::Refused { line, rule }, number, &[])),
            Err(MmError::NoMemory) => Err(NoMemory),
        }
    }

    /// What was read, where no line follows and `number` is one past the last: without a line 1 rule M1 is broken, without a size line M3.
    pub(crate) fn finish(self, number: u64) -> Result<Matrix, MmError>
        ensures read { Gives result (outcome self number []) }
        ensures matrix { IfOk result (λ m. IsMatrix m) }
    {
        match self {
            Stage::Start => Err(MmError::Broken {
                line: 1,
                rule: Rule::M1,
            }),
            Stage::Size(_) => Err(MmError::Broken {
                line: number,
                rule: Rule::M3,
            }),
            Stage::Entries(table) => match table.finish() {
                Ok(matrix) => Ok(matrix),
                Err(rule) => Err(MmError::Broken { line: number, rule }),
            },
            Stage::Refused { line, rule } => Err(MmError::Broken { line, rule }),
        }
    }
}
