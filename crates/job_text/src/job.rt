ghost use Rattle.std.specs.Prelude.{◌≡◌, ◌<◌, ◌↔◌, true, length, OnOk, IfOk, IsErrOf};
ghost use Rattle.job_text.specs.Lines.{said, is_some_text};
ghost use Rattle.job_text.specs.Job.{HasNoForm, IsJob, AddsLine};

use crate::line_forms::line_form;
use crate::lines::{is_some_text, lines, said};
use crate::stop::Stop;
use crate::tokens::Token;
use bern_base::{Items, JobLine, JobText, MOST_JOB_BYTES, NoMemory};
use std::alloc::Global;
use thiserror::Error;

/// Why a job text was not read. What was given is as it was.
#[derive(Clone, Copy, Debug, PartialEq, Eq, Error)]
pub enum JobError {
    /// The text has more than [`MOST_JOB_BYTES`] bytes.
    #[error("the job has more than 1048576 bytes")]
    TooLong,
    /// There was no memory for the lines, the words or tokens of a line, or the forms.
    #[error("out of memory")]
    NoMemory,
}

/// Reads a job text: the forms of its lines up to the first line that has none, and that line's number.
///
/// Lines count from 1, by their feeds; those with nothing but blanks and a comment are left out, and count. A line without a
/// form is no error: its number is `broken`, and no line after it is read. A text has at most [`MOST_JOB_BYTES`] bytes.
pub fn read_job(alloc: Global, bytes: &[u8]) -> Result<JobText, JobError>
    ensures job { IfOk result (λ job. IsJob bytes.now job) }
    ensures too_long { IsErrOf result JobError.TooLong ↔ (MOST_JOB_BYTES < length bytes.now) }
{
    if bytes.len() > MOST_JOB_BYTES {
        return Err(JobError::TooLong);
    }
    match read_lines(alloc, bytes) {
        Ok(job) => Ok(job),
        Err(_) => Err(JobError::NoMemory),
    }
}

fn read_lines(alloc: Global, bytes: &[u8]) -> Result<JobText, NoMemory>
    ensures { IfOk result (λ job. IsJob bytes.now job) }
{
    let texts = lines(alloc, bytes)?;
    let mut forms = Items::new(alloc);
    let mut tokens = Vec::new(alloc);
    let mut number: u64 = 1;
    for line in &texts {
        match add_line(alloc, &mut tokens, &mut forms, number, line.bytes()) {
            Ok(()) => number += 1,
            Err(Stop::NoForm) => {
                return Ok(JobText {
                    lines: forms,
                    broken: Some(number),
                });
            }
            Err(Stop::NoMemory) => return Err(NoMemory),
        }
    }
    Ok(JobText {
        lines: forms,
        broken: None,
    })
}

/// Adds the form of a line, or nothing where the line says nothing.
///
/// `tokens` is a list that is free to be filled.
fn add_line(
    alloc: Global,
    tokens: &mut Vec<Token>,
    forms: &mut Items<JobLine>,
    number: u64,
    line: &[u8],
) -> Result<(), Stop>
    ensures ok { OnOk result (AddsLine number (said line.now) forms.old forms.new) }
    ensures same { IsErrOf result Stop.NoForm → forms.new ≡ forms.old }
    ensures none { IsErrOf result Stop.NoForm → (is_some_text (said line.now) ≡ true) × HasNoForm (said line.now) }
{
    let text = said(line);
    if !is_some_text(text) {
        return Ok(());
    }
    match line_form(alloc, tokens, text) {
        Ok(form) => {
            forms.push(JobLine { number, form })?;
            Ok(())
        }
        Err(stop) => Err(stop),
    }
}
