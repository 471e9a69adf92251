//! Single syntax elements.
ghost use Rattle.std.specs.Prelude.{List, [], ◌∷◌};
ghost use Rattle.bit_texts.specs.Texts.{Appends};
ghost use Rattle.exp_golomb.specs.Code.{se};
ghost use Rattle.ref_pic_lists.specs.PredWeightTable.{IsSigned};

use exp_golomb::{BitSink, write_se};
use std::alloc::AllocError as Memory;

/// A flag, u(1).
pub fn write_flag<B: BitSink>(out: &mut B, flag: bool) -> Result<(), Memory>
    ensures { Appends (B.bits out.old) (B.bits out.new) (flag ∷ []) result }
{
    out.put(flag)
}

/// A weight or an offset.
pub fn write_signed<B: BitSink>(out: &mut B, value: i32) -> Result<(), Memory>
    requires { IsSigned value }
    ensures { Appends (B.bits out.old) (B.bits out.new) (se value) result }
{
    write_se(out, value)
}
