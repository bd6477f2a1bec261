//! Why a module is not registered.
ghost use Rattle.std.specs.Prelude.{◌≡◌};
ghost use Rattle.module_store.specs.Faults.{fault_of_decode, fault_of_valid, fault_of_image};
ghost use Rattle.module_store.specs.declared.fault.LoadFault.TheVariants as fault;

use initial_image::{ImageFault, Misfit};
use pool_limits::Over;
use thiserror::Error;
use wasm_decode::DecodeFault;
use wasm_validate::ValidFault;

/// Why bytes are not registered.
#[derive(Clone, Copy, Debug, PartialEq, Eq, Error)]
pub enum LoadFault {
    /// The desk has registered all modules that it may.
    #[error("too many modules")]
    TooMany,
    /// The bytes spell no module.
    #[error("malformed module")]
    Malformed,
    /// The module uses floats, or imports what the profile does not run.
    #[error("unsupported module")]
    Unsupported,
    /// The module is not valid.
    #[error("invalid module")]
    Invalid,
    /// It asks for more than a limit allows.
    #[error("{0}")]
    OverLimit(Over),
    /// A segment ends past its table or memory.
    #[error("{0}")]
    Segment(Misfit),
    /// Memory was refused.
    #[error("out of memory")]
    NoMemory,
}

impl From<DecodeFault> for LoadFault {
    ghost from_gives = { λ e f. f ≡ fault_of_decode e };

    fn from(e: DecodeFault) -> LoadFault {
        match e {
            DecodeFault::Malformed => LoadFault::Malformed,
            DecodeFault::NoMemory => LoadFault::NoMemory,
        }
    }
}

impl From<ValidFault> for LoadFault {
    ghost from_gives = { λ e f. f ≡ fault_of_valid e };

    fn from(e: ValidFault) -> LoadFault {
        match e {
            ValidFault::Unsupported => LoadFault::Unsupported,
            ValidFault::Invalid => LoadFault::Invalid,
            ValidFault::NoMemory => LoadFault::NoMemory,
        }
    }
}

impl From<Over> for LoadFault {
    ghost from_gives = { λ e f. f ≡ fault.OverLimit e };

    fn from(e: Over) -> LoadFault {
        LoadFault::OverLimit(e)
    }
}

impl From<ImageFault> for LoadFault {
    ghost from_gives = { λ e f. f ≡ fault_of_image e };

    fn from(e: ImageFault) -> LoadFault {
        match e {
            ImageFault::Segment(misfit) => LoadFault::Segment(misfit),
            ImageFault::NoMemory => LoadFault::NoMemory,
        }
    }
}
