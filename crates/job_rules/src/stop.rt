ghost use Rattle.std.specs.Prelude.{◌≡◌};
ghost use Rattle.job_rules.specs.declared.stop.Stop.TheVariants.{NoMemory as NoRoom};

use bern_base::{NoMemory, Rule};
use std::alloc::AllocError;

/// Why a line does not join the job.
#[derive(Clone, Copy, Debug, PartialEq, Eq)]
pub(crate) enum Stop {
    /// The first rule that it breaks.
    Broken(Rule),
    NoMemory,
}

impl From<NoMemory> for Stop {
    ghost from_gives = { λ error stop. stop ≡ NoRoom };

    fn from(_: NoMemory) -> Self {
        Stop::NoMemory
    }
}

impl From<AllocError> for Stop {
    ghost from_gives = { λ error stop. stop ≡ NoRoom };

    fn from(_: AllocError) -> Self {
        Stop::NoMemory
    }
}
