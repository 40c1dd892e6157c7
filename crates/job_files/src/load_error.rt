ghost use Rattle.std.specs.Prelude.{◌≡◌};
ghost use Rattle.job_files.specs.Answers.{IsFaultAt, IsRefusalOf};

use bern_base::{NoMemory, Refusal, Rule, Text};
use std::alloc::{AllocError, Global};
use thiserror::Error;

/// Why a job's files give no matrices, and a command no text.
#[derive(Debug, Drop, Error)]
pub enum LoadError {
    #[error("refused")]
    Refused(Refusal),
    #[error("a call on a file failed")]
    ReadFault { file: Text },
    #[error("out of memory")]
    NoMemory,
}

/// The refusal of a file at a line; line 0 is the file as a whole.
pub fn refusal(alloc: Global, name: &[u8], line: u64, rule: Rule) -> LoadError
    ensures { IsRefusalOf (Refusal.File name.now line rule) result }
{
    match Text::from_bytes(alloc, name) {
        Ok(file) => LoadError::Refused(Refusal::File { file, line, rule }),
        Err(_) => LoadError::NoMemory,
    }
}

/// The fault of a call on that file.
pub fn fault_at(alloc: Global, name: &Text) -> LoadError
    ensures { IsFaultAt name.now result }
{
    match Text::from_bytes(alloc, name.as_bytes()) {
        Ok(file) => LoadError::ReadFault { file },
        Err(_) => LoadError::NoMemory,
    }
}

impl From<NoMemory> for LoadError {
    ghost use Rattle.std.specs.Prelude.{◌≡◌};
    ghost use Rattle.job_files.specs.declared.load_error.LoadError.TheVariants.{NoMemory as no_memory};

    ghost from_gives = { λ _ e. e ≡ no_memory };

    fn from(_: NoMemory) -> Self {
        LoadError::NoMemory
    }
}

impl From<AllocError> for LoadError {
    ghost use Rattle.std.specs.Prelude.{◌≡◌};
    ghost use Rattle.job_files.specs.declared.load_error.LoadError.TheVariants.{NoMemory as no_memory};

    ghost from_gives = { λ _ e. e ≡ no_memory };

    fn from(_: AllocError) -> Self {
        LoadError::NoMemory
    }
}
