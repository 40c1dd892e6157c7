ghost use Rattle.std.specs.Prelude.{◌≡◌, IfOk, IfErr};
ghost use Rattle.job_model.specs.Accepted.{IsAccepted};
ghost use Rattle.job_accept.specs.Front.{IsReadAs, IsTooLong, SaysWhere, AcceptsBytes, RefusesBytes};

use bern_base::{Checked, JobText, Rule};
use job_rules::{CheckError, check_job};
use job_text::{JobError, read_job};
use std::alloc::Global;

/// Reads a job and tries its rules: the first refusal, by line and then by rule, or the job with numbers for names.
///
/// A job of more than `MOST_JOB_BYTES` bytes is refused by J1 at line 0. What is taken keeps all rules
/// ([`accepted_bytes_keep_the_rules`](crate::accepted_bytes_keep_the_rules)).
pub fn take_job(alloc: Global, bytes: &[u8]) -> Result<Checked, CheckError>
    ensures accepted { IfOk result (AcceptsBytes bytes.now) }
    ensures refused { IfErr result (RefusesBytes bytes.now) }
    ensures keeps { IfOk result IsAccepted }
{
    match read_text(alloc, bytes) {
        Ok(text) => check_job(alloc, &text),
        Err(refused) => Err(refused),
    }
}

/// The text of bytes that are not too many.
fn read_text(alloc: Global, bytes: &[u8]) -> Result<JobText, CheckError>
    ensures read { IfOk result (IsReadAs bytes.now) }
    ensures refused { IfErr result (SaysWhere (IsTooLong bytes.now)) }
{
    match read_job(alloc, bytes) {
        Ok(text) => Ok(text),
        Err(JobError::TooLong) => Err(too_long()),
        Err(JobError::NoMemory) => Err(CheckError::NoMemory),
    }
}

/// J1: the answer for a job of more than `MOST_JOB_BYTES` bytes, whatever they are.
pub fn too_long() -> CheckError
    ensures { result ≡ CheckError.Refused 0 Rule.J1 }
{
    CheckError::Refused {
        line: 0,
        rule: Rule::J1,
    }
}
