//! Single syntax elements, where a fault says that none stands there.
ghost use Rattle.std.specs.Prelude.{◌≤◌, pos, negsuc, ◌≡◌, ◌++◌};
ghost use Rattle.exp_golomb.specs.Code.{Flag, Ue, Se};
ghost use Rattle.exp_golomb.specs.Syntax.{ReadsElement};
ghost use Rattle.ref_pic_lists.specs.declared.fault.ListFault.TheVariants.{NoReading};

use crate::fault::ListFault;
use exp_golomb::{BitSource, read_flag, read_se, read_ue};

pub fn flag<B: BitSource>(bits: &mut B) -> Result<bool, ListFault>
    ensures reads { ReadsElement NoReading Flag result (B.left bits.old) (B.left bits.new) }
    ensures kept { B.taken bits.new ++ B.left bits.new ≡ B.taken bits.old ++ B.left bits.old }
{
    read_flag(bits).ok_or(ListFault::NoReading)
}

pub fn ue<B: BitSource>(bits: &mut B, max: u32) -> Result<u32, ListFault>
    requires { max ≤ 4294967294 }
    ensures reads { ReadsElement NoReading (Ue max) result (B.left bits.old) (B.left bits.new) }
    ensures kept { B.taken bits.new ++ B.left bits.new ≡ B.taken bits.old ++ B.left bits.old }
{
    read_ue(bits, max).ok_or(ListFault::NoReading)
}

/// A weight or an offset.
pub fn signed<B: BitSource>(bits: &mut B) -> Result<i32, ListFault>
    ensures reads { ReadsElement NoReading (Se (negsuc 127) (pos 127)) result (B.left bits.old) (B.left bits.new) }
    ensures kept { B.taken bits.new ++ B.left bits.new ≡ B.taken bits.old ++ B.left bits.old }
{
    read_se(bits, -128, 127).ok_or(ListFault::NoReading)
}
