ghost use Rattle.std.specs.Prelude.{◌≡◌};
ghost use Rattle.ref_pic_lists.specs.declared.fault.ListFault.TheVariants.{Memory};

use std::alloc::{AllocError, AllocFailed};
use thiserror::Error;

/// Why bits give no modification of a list, or no table of weights.
#[derive(Clone, Copy, Debug, PartialEq, Eq, Error)]
pub enum ListFault {
    /// No text of one begins the bits.
    #[error("no elements of reference picture lists have this text")]
    NoReading,
    /// No memory was left.
    #[error("out of memory")]
    Memory,
}

impl From<AllocError> for ListFault {
    ghost from_gives = { λ _ e. e ≡ Memory };

    fn from(_e: AllocError) -> ListFault {
        ListFault::Memory
    }
}

impl<T: Drop> From<AllocFailed<T>> for ListFault {
    ghost from_gives = { λ _ e. e ≡ Memory };

    fn from(_e: AllocFailed<T>) -> ListFault {
        ListFault::Memory
    }
}
