ghost use Rattle.std.specs.Prelude.{◌≡◌, ℕ, ◌+◌, ◌^◌, ◌<◌, ◌≤◌, List, [], ◌∷◌, ◌++◌, length, false, Err, IsTrue, IfOk};
ghost use Rattle.std.specs.List.{list_any};
ghost use Rattle.bern_base.specs.Matrix.{IsMatrix};
ghost use Rattle.mm_profile.specs.Lines.{is_line_feed, lines};
ghost use Rattle.mm_profile.specs.Profile.{file};
ghost use Rattle.mm_text.specs.Stages.{is_numbered, Gives};

use crate::error::MmError;
use crate::lines::{split_line, without_return};
use crate::stage::Stage;
use bern_base::{Matrix, NoMemory, Rule};
use std::alloc::Global;

/// How far a file is read.
#[derive(Drop)]
pub(crate) struct Reading {
    alloc: Global,
    stage: Stage,
    /// The number of the next line.
    number: u64,
    /// The bytes of the next line so far.
    line: Vec<u8>,
    ghost numbered: { IsTrue (is_numbered stage number) },
    ghost unended: { list_any is_line_feed line.items ≡ false },
}

impl Reading {
    ghost use Rattle.mm_text.specs.Readings.{rest_of, Reads};

    /// Nothing is read yet.
    pub(crate) fn new(alloc: Global) -> Reading
        ensures reads { (more : List ℕ) → rest_of result more ≡ file (lines more) }
        ensures first { result.number ≡ 1 }
    {
        Reading {
            alloc,
            stage: Stage::Start,
            number: 1,
            line: Vec::new(alloc),
        }
    }

    /// The reading of a file that breaks rule M12. What was kept of it is dropped.
    pub(crate) fn too_long(self) -> Reading
        ensures reads { (more : List ℕ) → rest_of result more ≡ Err (0, Rule.M12) }
        ensures first { result.number ≡ 1 }
    {
        let alloc = self.alloc;
        let (line, rule) = (0, Rule::M12);
        Reading {
            alloc,
            stage: Stage::Refused { line, rule },
            number: 1,
            line: Vec::new(alloc),
        }
    }

    fn is_refused(&self) -> bool
        ensures { IsTrue result → (bytes more : List ℕ) → rest_of self.now bytes ≡ rest_of self.now more }
    {
        match self.stage {
            Stage::Refused { .. } => true,
            _ => false,
        }
    }

    /// Takes the end of a line, without its line feed, where `to_come` bytes are known to come after it.
    fn end_line(self, end: &[u8], to_come: usize) -> Result<Reading, NoMemory>
        requires whole { list_any is_line_feed end.now ≡ false }
        requires fits { self.number + 1 < 2 ^ 64 }
        ensures reads { IfOk result (λ after. (more : List ℕ) →
            rest_of self (end.now ++ 10 ∷ more) ≡ rest_of after more) }
        ensures next { IfOk result (λ after. after.number ≡ self.number + 1) }
        ensures ended { IfOk result (λ after. after.line.items ≡ []) }
    {
        let Reading {
            alloc,
            stage,
            number,
            mut line,
        } = self;
        if line.as_slice().is_empty() {
            let stage = stage.step(alloc, number, without_return(end), to_come)?;
            return Ok(Reading {
                alloc,
                stage,
                number: number + 1,
                line,
            });
        }
        line.extend_from_slice(end)?;
        let stage = stage.step(alloc, number, without_return(line.as_slice()), to_come)?;
        line.clear();
        Ok(Reading {
            alloc,
            stage,
            number: number + 1,
            line,
        })
    }

    /// Takes all lines that end in a piece, once the size line is read. Gives what is left of the piece.
    fn take_entries<'a>(self, piece: &'a [u8]) -> Result<(Reading, &'a [u8]), NoMemory>
        requires begins { self.line.items ≡ [] }
        requires fits { self.number + length piece.now < 2 ^ 64 }
        ensures reads { IfOk result (λ left. (more : List ℕ) →
            rest_of self (piece.now ++ more) ≡ rest_of left.0 (left.1.now ++ more)) }
        ensures number { IfOk result (λ left. left.0.number + length left.1.now ≤ self.number + length piece.now) }
        ensures shorter { IfOk result (λ left. length left.1.now ≤ length piece.now) }
    {
        let Reading {
            alloc,
            stage,
            number,
            line,
        } = self;
        let (stage, number, rest) = stage.take_lines(number, piece)?;
        let reading = Reading {
            alloc,
            stage,
            number,
            line,
        };
        Ok((reading, rest))
    }

    /// Takes a line that ends, and the lines after it that end in the piece, once the size line is read. Gives what is left of the piece.
    fn take_some<'a>(self, line: &[u8], after: &'a [u8]) -> Result<(Reading, &'a [u8]), NoMemory>
        requires whole { list_any is_line_feed line.now ≡ false }
        requires fits { self.number + 1 + length after.now < 2 ^ 64 }
        ensures reads { IfOk result (λ left. (more : List ℕ) →
            rest_of self (line.now ++ 10 ∷ (after.now ++ more)) ≡ rest_of left.0 (left.1.now ++ more)) }
        ensures number { IfOk result (λ left. left.0.number + length left.1.now ≤ self.number + 1 + length after.now) }
        ensures shorter { IfOk result (λ left. length left.1.now ≤ length after.now) }
    {
        match self.end_line(line, after.len()) {
            Ok(reading) => reading.take_entries(after),
            Err(NoMemory) => Err(NoMemory),
        }
    }

    /// Keeps the beginning of a line.
    fn keep(self, front: &[u8]) -> Result<Reading, NoMemory>
        requires unended { list_any is_line_feed front.now ≡ false }
        ensures reads { IfOk result (λ after. Reads self front.now after) }
        ensures same { IfOk result (λ after. after.number ≡ self.number) }
    {
        let Reading {
            alloc,
            stage,
            number,
            mut line,
        } = self;
        line.extend_from_slice(front)?;
        Ok(Reading {
            alloc,
            stage,
            number,
            line,
        })
    }

    /// Takes the next piece of the file.
    pub(crate) fn take(self, piece: &[u8]) -> Result<Reading, NoMemory>
        requires fits { self.number + length piece.now < 2 ^ 64 }
        ensures reads { IfOk result (λ after. Reads self piece.now after) }
        ensures number { IfOk result (λ after. after.number ≤ self.number + length piece.now) }
    {
        let mut reading = self;
        let mut rest = piece;
        while let Some((line, after)) = split_line(rest) {
            if reading.is_refused() {
                return Ok(reading);
            }
            match reading.take_some(line, after) {
                Ok((next, left)) => {
                    reading = next;
                    rest = left;
                }
                Err(NoMemory) => return Err(NoMemory),
            }
        }
        if reading.is_refused() {
            return Ok(reading);
        }
        reading.keep(rest)
    }

    /// What was read, where no bytes follow.
    pub(crate) fn finish(self) -> Result<Matrix, MmError>
        requires fits { self.number + 1 < 2 ^ 64 }
        ensures read { Gives result (rest_of self []) }
        ensures matrix { IfOk result (λ m. IsMatrix m) }
    {
        let Reading {
            alloc,
            stage,
            number,
            line,
        } = self;
        if line.as_slice().is_empty() {
            return stage.finish(number);
        }
        match stage.step(alloc, number, without_return(line.as_slice()), 0) {
            Ok(stage) => stage.finish(number + 1),
            Err(NoMemory) => Err(MmError::NoMemory),
        }
    }
}
