ghost use Rattle.std.specs.Prelude.{◌≡◌, ℕ, ◌+◌, ◌^◌, ◌<◌, ◌≤◌, List, [], Ok, Err, length, IsTrue, IfOk, IfErr, IfSome, IsNone, MatchResult};
ghost use Rattle.bern_base.specs.Matrix.{IsMatrix};
ghost use Rattle.mm_profile.specs.Sizes.{is_square};
ghost use Rattle.mm_profile.specs.Profile.{Numbered, table};
ghost use Rattle.mm_text.specs.Counts.{are_inside};
ghost use Rattle.mm_text.specs.Cursor.{is_due};

use crate::due::{Due, all_due};
use crate::entry_line::next_entry;
use crate::error::{LineError, MmError};
use crate::lines::{split_line, without_return};
use crate::plain_lines::next_plain;
use crate::room::{append, room_for};
use crate::sums::matrix_of;
use crate::word_list::is_skipped;
use bern_base::{Entry, Matrix, NoMemory, Rule};
use mm_profile::Head;
use std::alloc::Global;

/// What is known of a file's entries so far.
#[derive(Drop)]
pub(crate) struct Table {
    head: Head,
    /// The places whose lines are still due.
    due: Due,
    /// All that counts, in the order of the lines.
    counted: Vec<Entry>,
    ghost square: { IsTrue (is_square head.kind.symmetry head.rows head.cols) },
    ghost within: { IsTrue (is_due head due) },
    ghost inside: { IsTrue (are_inside head.rows head.cols counted.items) },
}

impl Table {
    ghost use Rattle.mm_text.specs.Tables.{table_rest, AfterLine, AfterAnyLine, LeavesLines, TakesFirst, Stays};
    ghost use Rattle.mm_text.specs.Stages.{RefusesPiece};

    /// The table of a file of which no entry line is read, with room for what the bytes that are known to come can hold.
    pub(crate) fn new(alloc: Global, head: Head, to_come: usize) -> Result<Table, NoMemory>
        requires { IsTrue (is_square head.kind.symmetry head.rows head.cols) }
        ensures { IfOk result (λ t. (lines : List Numbered) (past : ℕ) →
            table_rest t lines past ≡ table head lines past) }
    {
        match Vec::with_capacity(alloc, room_for(&head, to_come)) {
            Ok(counted) => Ok(Table {
                head,
                due: all_due(&head),
                counted,
            }),
            Err(_) => Err(NoMemory),
        }
    }

    /// Takes an entry line.
    fn take(&mut self, line: &[u8]) -> Result<(), LineError>
        ensures { AfterLine self.old line.now self.new result }
    {
        match next_entry(&self.head, self.due, line) {
            Ok((counted, due)) => match append(&self.head, &mut self.counted, counted) {
                Ok(()) => {
                    self.due = due;
                    Ok(())
                }
                Err(NoMemory) => Err(LineError::NoMemory),
            },
            Err(rule) => Err(LineError::Broken(rule)),
        }
    }

    /// Takes a line that may be one to skip.
    pub(crate) fn take_any(&mut self, line: &[u8]) -> Result<(), LineError>
        ensures { AfterAnyLine self.old line.now self.new result }
    {
        if is_skipped(line) {
            return Ok(());
        }
        self.take(line)
    }

    /// Takes the plain entry line at the start of a piece, and gives what stands after it. None leaves the table as it was, and says nothing of the piece.
    fn take_plain<'a>(&mut self, piece: &'a [u8]) -> Option<&'a [u8]>
        ensures some { IfSome result (λ rest. TakesFirst self.old piece.now self.new rest.now) }
        ensures none { IsNone result → Stays self.old self.new }
        ensures shorter { IfSome result (λ rest. length rest.now < length piece.now) }
    {
        let Some((counted, due, rest)) = next_plain(&self.head, self.due, piece) else {
            return None;
        };
        match append(&self.head, &mut self.counted, counted) {
            Ok(()) => {
                self.due = due;
                Some(rest)
            }
            Err(NoMemory) => None,
        }
    }

    /// Takes the plain lines at the start of a piece, of which the first has this number. Gives the number of the line after them, and what is left of the piece.
    fn take_plain_lines<'a>(&mut self, number: u64, piece: &'a [u8]) -> (u64, &'a [u8])
        requires fits { number + length piece.now < 2 ^ 64 }
        ensures lines { LeavesLines self.old number piece.now self.new result.0 result.1.now }
        ensures number { result.0 + length result.1.now ≤ number + length piece.now }
        ensures shorter { length result.1.now ≤ length piece.now }
    {
        let mut next = number;
        let mut rest = piece;
        while let Some(after) = self.take_plain(rest) {
            next += 1;
            rest = after;
        }
        (next, rest)
    }

    /// Takes all lines that end in a piece, of which the first has this number. Gives the number of the line that is left, and its beginning.
    pub(crate) fn take_lines<'a>(
        &mut self,
        number: u64,
        piece: &'a [u8],
    ) -> Result<(u64, &'a [u8]), MmError>
        requires fits { number + length piece.now < 2 ^ 64 }
        ensures lines { IfOk result (λ left. LeavesLines self.old number piece.now self.new left.0 left.1.now) }
        ensures refused { IfErr result (RefusesPiece self.old number piece.now) }
        ensures number { IfOk result (λ left. left.0 + length left.1.now ≤ number + length piece.now) }
        ensures shorter { IfOk result (λ left. length left.1.now ≤ length piece.now) }
    {
        let (mut next, mut rest) = self.take_plain_lines(number, piece);
        while let Some((line, after)) = split_line(rest) {
            match self.take_any(without_return(line)) {
                Ok(()) => {}
                Err(LineError::Broken(rule)) => return Err(MmError::Broken { line: next, rule }),
                Err(LineError::NoMemory) => return Err(MmError::NoMemory),
            }
            let (later, left) = self.take_plain_lines(next + 1, after);
            next = later;
            rest = left;
        }
        Ok((next, rest))
    }

    /// The matrix, where no more lines follow. Rule M10: none is due.
    pub(crate) fn finish(self) -> Result<Matrix, Rule>
        ensures read { MatchResult result
            (λ m. (past : ℕ) → table_rest self [] past ≡ Ok m)
            (λ rule. (past : ℕ) → table_rest self [] past ≡ Err (past, rule)) }
        ensures matrix { IfOk result (λ m. IsMatrix m) }
    {
        let Table { head, due, counted } = self;
        match due {
            Due::Lines(0) => Ok(matrix_of(&head, counted)),
            Due::Lines(_) => Err(Rule::M10),
            Due::Listed { .. } => Err(Rule::M10),
        }
    }
}
