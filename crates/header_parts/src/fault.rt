ghost use Rattle.std.specs.Prelude.{◌≡◌};
ghost use Rattle.header_parts.specs.declared.fault.HeaderFault.TheVariants.{Memory};
ghost use Rattle.header_parts.specs.Refusal.{list_fault};

use ref_pic_lists::ListFault;
use std::alloc::{AllocError, AllocFailed};
use thiserror::Error;

/// Why bits give no slice header.
#[derive(Clone, Copy, Debug, PartialEq, Eq, Error)]
pub enum HeaderFault {
    /// No header's text begins the bits, up to the first element that is refused.
    #[error("no slice header has this text")]
    NoReading,
    /// No picture parameter set has the number that the slice names.
    #[error("picture parameter set {0} is missing")]
    MissingPps(u8),
    /// No sequence parameter set has the number that the slice's picture parameter set names.
    #[error("sequence parameter set {0} is missing")]
    MissingSps(u8),
    /// The slice type is SP or SI, or Main has a transform of 8x8 blocks.
    #[error("an element is outside the profile")]
    Profile,
    /// No memory was left.
    #[error("out of memory")]
    Memory,
}

impl From<AllocError> for HeaderFault {
    ghost from_gives = { λ _ e. e ≡ Memory };

    fn from(_e: AllocError) -> HeaderFault {
        HeaderFault::Memory
    }
}

impl<T: Drop> From<AllocFailed<T>> for HeaderFault {
    ghost from_gives = { λ _ e. e ≡ Memory };

    fn from(_e: AllocFailed<T>) -> HeaderFault {
        HeaderFault::Memory
    }
}

impl From<ListFault> for HeaderFault {
    ghost from_gives = { λ fault e. e ≡ list_fault fault };

    fn from(fault: ListFault) -> HeaderFault {
        match fault {
            ListFault::NoReading => HeaderFault::NoReading,
            ListFault::Memory => HeaderFault::Memory,
        }
    }
}
