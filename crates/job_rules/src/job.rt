ghost use Rattle.std.specs.Prelude.{◌≡◌, None, OnOk, IfOk, IfErr, length};
ghost use Rattle.std.specs.List.{range_with_len};
ghost use Rattle.job_rules.specs.Rules.{broken_rule};
ghost use Rattle.job_rules.specs.First.{Joins, StopsAt, Accepts, RefusesAs, IsReadableText, IsReadableForm};

use crate::draft::Draft;
use crate::nests::add_nest;
use crate::stop::Stop;
use bern_base::{Checked, Form, JobLine, JobText, Rule};
use std::alloc::Global;
use thiserror::Error;

/// Why a job was not taken. Lines count from 1.
#[derive(Clone, Copy, Debug, PartialEq, Eq, Error)]
pub enum CheckError {
    /// The first line that breaks a rule, and the first rule that it breaks.
    #[error("line {line} breaks a rule of jobs")]
    Refused { line: u64, rule: Rule },
    #[error("out of memory")]
    NoMemory,
}

/// Tries the rules of a job, and turns its names into numbers.
///
/// The first line that breaks a rule is refused, with the first rule that it breaks; a line without a form is J2. What
/// is taken keeps all rules, so each of its numbers names an item of its own lists; its turns are its nests, one after
/// another. The time is in proportion to the
/// length of the text.
pub fn check_job(alloc: Global, text: &JobText) -> Result<Checked, CheckError>
    requires { IsReadableText text.now }
    ensures accepted { IfOk result (Accepts text.now) }
    ensures turns { IfOk result (λ job. job.turns ≡ range_with_len 0 (length job.nests)) }
    ensures refused { IfErr result (RefusesAs text.now) }
{
    let mut draft = Draft::new(alloc);
    for line in text.lines.as_slice() {
        match add_line(alloc, &mut draft, line) {
            Ok(()) => {}
            Err(Stop::Broken(rule)) => {
                return Err(CheckError::Refused {
                    line: line.number,
                    rule,
                });
            }
            Err(Stop::NoMemory) => return Err(CheckError::NoMemory),
        }
    }
    match text.broken {
        Some(line) => Err(CheckError::Refused {
            line,
            rule: Rule::J2,
        }),
        None => {
            let Draft { job, .. } = draft;
            Ok(job)
        }
    }
}

/// Adds what a line declares, where it breaks no rule.
fn add_line<'a>(alloc: Global, draft: &mut Draft<'a>, line: &'a JobLine) -> Result<(), Stop>
    requires { IsReadableForm line.now.form }
    ensures ok { OnOk result (Joins draft.old draft.new line.now.number line.now.form) }
    ensures err { IfErr result (StopsAt (broken_rule draft.old line.now.form)) }
{
    match &line.form {
        Form::Extent { name, size } => draft.add_extent(alloc, name, *size),
        Form::Place { name, extent, kind } => draft.add_place(alloc, name, extent, kind),
        Form::Format { name, shape } => draft.add_format(alloc, name, shape),
        Form::Array {
            name,
            extents,
            format,
            axis,
            place,
            file,
        } => draft.add_array(alloc, name, extents, format, *axis, place, file),
        Form::Nest(nest) => add_nest(alloc, draft, line.number, nest),
        Form::Print { name } => draft.add_print(name),
    }
}
