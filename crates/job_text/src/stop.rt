ghost use Rattle.std.specs.Prelude.{◌≡◌};
ghost use Rattle.job_text.specs.declared.stop.Stop.TheVariants.{NoMemory as NoRoom};

use bern_base::NoMemory;
use std::alloc::{AllocError, AllocFailed};

/// Why a reader gave no form.
#[derive(Clone, Copy)]
pub(crate) enum Stop {
    /// The words or tokens spell nothing of the kind.
    NoForm,
    NoMemory,
}

impl From<AllocError> for Stop {
    ghost from_gives = { λ error stop. stop ≡ NoRoom };

    fn from(_: AllocError) -> Self {
        Stop::NoMemory
    }
}

impl From<NoMemory> for Stop {
    ghost from_gives = { λ error stop. stop ≡ NoRoom };

    fn from(_: NoMemory) -> Self {
        Stop::NoMemory
    }
}

impl<T: Drop> From<AllocFailed<T>> for Stop {
    ghost from_gives = { λ error stop. stop ≡ NoRoom };

    fn from(_: AllocFailed<T>) -> Self {
        Stop::NoMemory
    }
}
