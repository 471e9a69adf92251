ghost use Rattle.std.specs.Prelude.{◌≡◌, ◌≤◌, Bool};
ghost use Rattle.cavlc_macroblock.specs.Reading.{IsSent};
ghost use Rattle.cavlc_mb_residual.specs.MacroblockResidual.{is_beyond_mb};
ghost use Rattle.h264_types.specs.declared.slice_shape.SliceShape.{SliceShape};
ghost use Rattle.cavlc_syntax.specs.SliceText.{prefix_bound};

use cavlc_mb_residual::is_beyond;
use h264_types::{Mb, SliceShape};

/// No level needs a longer level_prefix.
const LONGEST_PREFIX: u8 = 20;

/// The greatest level_prefix that a slice may have (9.2.2.1).
pub fn prefix_bound(shape: &SliceShape) -> u8
    ensures value { result ≡ prefix_bound shape.now }
    ensures most { result ≤ 20 }
{
    if shape.profile == 77 {
        15
    } else {
        LONGEST_PREFIX
    }
}

/// Whether some level of a macroblock needs a level_prefix above the bound.
pub fn needs_longer_prefix(mb: &Mb, bound: u8) -> bool
    requires sent { (shape : SliceShape) × (field : Bool) × IsSent shape field 20 mb.now }
    requires within { bound ≤ 20 }
    ensures { result ≡ is_beyond_mb bound mb.now }
{
    if bound == LONGEST_PREFIX {
        return false;
    }
    is_beyond(mb, bound)
}
