//! Why a line is not read.
ghost use Rattle.std.specs.Prelude.{◌≡◌};

use crate::request::Reason;
use std::alloc::AllocError;
use thiserror::Error;

// Why a line is not read.
#[derive(Debug, Drop, Error)]
pub(crate) enum LineFault {
    #[error("{0}")]
    Refused(Reason),
    #[error("out of memory")]
    NoMemory,
}

impl From<AllocError> for LineFault {
    ghost use Rattle.request_text.specs.declared.fault.LineFault.TheVariants.{NoMemory};

    ghost from_gives = { λ _ e. e ≡ NoMemory };

    fn from(_: AllocError) -> Self {
        LineFault::NoMemory
    }
}

impl From<Reason> for LineFault {
    ghost use Rattle.request_text.specs.declared.fault.LineFault.TheVariants.{Refused};

    ghost from_gives = { λ reason e. e ≡ Refused reason };

    fn from(reason: Reason) -> Self {
        LineFault::Refused(reason)
    }
}
