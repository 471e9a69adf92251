ghost use Rattle.std.specs.Prelude.{◌≡◌};
ghost use Rattle.cavlc_residual.specs.declared.fault.BlockFault.TheVariants.{Memory};

use std::alloc::AllocError;
use thiserror::Error;

/// Why a block was not written.
#[derive(Clone, Copy, Debug, PartialEq, Eq, Error)]
pub enum BlockFault {
    /// A level needs a level_prefix above the bound, which is the profile's (A.2).
    #[error("a level needs a level_prefix above the bound")]
    Beyond,
    /// No memory was left.
    #[error("out of memory")]
    Memory,
}

impl From<AllocError> for BlockFault {
    ghost from_gives = { λ _ e. e ≡ Memory };

    fn from(_e: AllocError) -> BlockFault {
        BlockFault::Memory
    }
}
