ghost use Rattle.std.specs.Prelude.{◌≡◌};
ghost use Rattle.slice_rewrite.specs.declared.fault.RewriteFault.TheVariants.{Memory};
ghost use Rattle.slice_rewrite.specs.Faults.{fault_of_data, fault_of_escape, fault_of_header};

use annexb_units::EscapeFault;
use h264_types::{Case, Why};
use slice_data::SliceFault;
use slice_header::HeaderFault;
use std::alloc::{AllocError, AllocFailed};
use thiserror::Error;

/// Why a unit isn't read or written.
#[derive(Clone, Copy, Debug, PartialEq, Eq, Error)]
pub enum RewriteFault {
    /// It has no reading.
    #[error("the unit has no reading")]
    Outside(Why),
    /// The macroblock of this number can't be written, and no one before it.
    #[error("macroblock {1} of the slice can't be written")]
    Stop(Case, u32),
    /// Memory ran out.
    #[error("out of memory")]
    Memory,
}

impl From<AllocError> for RewriteFault {
    ghost from_gives = { λ _ e. e ≡ Memory };

    fn from(_e: AllocError) -> RewriteFault {
        RewriteFault::Memory
    }
}

impl<T: Drop> From<AllocFailed<T>> for RewriteFault {
    ghost from_gives = { λ _ e. e ≡ Memory };

    fn from(_e: AllocFailed<T>) -> RewriteFault {
        RewriteFault::Memory
    }
}

impl From<EscapeFault> for RewriteFault {
    ghost from_gives = { λ fault e. e ≡ fault_of_escape fault };

    fn from(fault: EscapeFault) -> RewriteFault {
        match fault {
            EscapeFault::BadEscape => RewriteFault::Outside(Why::Escape),
            EscapeFault::Memory => RewriteFault::Memory,
        }
    }
}

impl From<HeaderFault> for RewriteFault {
    ghost from_gives = { λ fault e. e ≡ fault_of_header fault };

    fn from(fault: HeaderFault) -> RewriteFault {
        match fault {
            HeaderFault::NoReading => RewriteFault::Outside(Why::Header),
            HeaderFault::MissingPps(number) => RewriteFault::Outside(Why::MissingPps(number)),
            HeaderFault::MissingSps(number) => RewriteFault::Outside(Why::MissingSps(number)),
            HeaderFault::Profile => RewriteFault::Outside(Why::Profile),
            HeaderFault::Memory => RewriteFault::Memory,
        }
    }
}

impl From<SliceFault> for RewriteFault {
    ghost from_gives = { λ fault e. e ≡ fault_of_data fault };

    fn from(fault: SliceFault) -> RewriteFault {
        match fault {
            SliceFault::NoReading => RewriteFault::Outside(Why::Slice),
        }
    }
}
