ghost use Rattle.std.specs.Prelude.{◌≡◌};
ghost use Rattle.param_sets.specs.declared.fault.SetFault.TheVariants.{Memory};

use std::alloc::{AllocError, AllocFailed};
use thiserror::Error;

/// Why a payload gives no parameter set.
#[derive(Clone, Copy, Debug, PartialEq, Eq, Error)]
pub enum SetFault {
    /// No fields have this text, up to the first one that is outside the profile.
    #[error("no fields have this text")]
    NoReading,
    /// A field is outside the profile (Main and High of 4:2:0 samples of 8 bits).
    #[error("a field is outside the profile")]
    Profile,
    /// The picture is wider, or a frame larger, than any level has (A.3.1).
    #[error("the picture is too large")]
    Limit,
    /// No memory was left.
    #[error("out of memory")]
    Memory,
}

impl From<AllocError> for SetFault {
    ghost from_gives = { λ _ e. e ≡ Memory };

    fn from(_e: AllocError) -> SetFault {
        SetFault::Memory
    }
}

impl<T: Drop> From<AllocFailed<T>> for SetFault {
    ghost from_gives = { λ _ e. e ≡ Memory };

    fn from(_e: AllocFailed<T>) -> SetFault {
        SetFault::Memory
    }
}
