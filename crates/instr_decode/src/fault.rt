//! Why bytes aren't decoded.

ghost use Rattle.std.specs.Prelude.{◌≡◌};
ghost use Rattle.instr_decode.specs.declared.fault.DecodeFault.TheVariants as fault;

use leb_read::Malformed;
use std::alloc::{AllocError, AllocFailed};

/// Why bytes aren't decoded.
#[derive(Clone, Copy, Debug, PartialEq, Eq, thiserror::Error)]
pub enum DecodeFault {
    /// The bytes spell nothing of what was asked for.
    #[error("malformed module")]
    Malformed,
    /// Memory was refused.
    #[error("out of memory")]
    NoMemory,
}

impl From<Malformed> for DecodeFault {
    ghost from_gives = { λ _ e. e ≡ fault.Malformed };

    fn from(_: Malformed) -> Self {
        DecodeFault::Malformed
    }
}

impl From<AllocError> for DecodeFault {
    ghost from_gives = { λ _ e. e ≡ fault.NoMemory };

    fn from(_: AllocError) -> Self {
        DecodeFault::NoMemory
    }
}

impl<T: Drop> From<AllocFailed<T>> for DecodeFault {
    ghost from_gives = { λ _ e. e ≡ fault.NoMemory };

    fn from(_: AllocFailed<T>) -> Self {
        DecodeFault::NoMemory
    }
}
