//! Single syntax elements, where a fault says that none stands there.
ghost use Rattle.std.specs.Prelude.{◌≤◌, ◌≤ℤ◌, pos, negsuc, false};
ghost use Rattle.exp_golomb.specs.Code.{Flag, U, Ue, Se};
ghost use Rattle.exp_golomb.specs.Syntax.{Element, Done, ReadsElement, Answers, outcome_of, when};
ghost use Rattle.param_sets.specs.Refusal.{part_says};
ghost use Rattle.param_sets.specs.declared.fault.SetFault.TheVariants.{NoReading};

use crate::fault::SetFault;
use exp_golomb::{BitSource, read_flag, read_se, read_u, read_ue};

pub fn flag<B: BitSource>(bits: &mut B) -> Result<bool, SetFault>
    ensures { ReadsElement NoReading Flag result (B.left bits.old) (B.left bits.new) }
{
    read_flag(bits).ok_or(SetFault::NoReading)
}

pub fn u<B: BitSource>(bits: &mut B, n: u8) -> Result<u32, SetFault>
    requires { n ≤ 32 }
    ensures { ReadsElement NoReading (U n) result (B.left bits.old) (B.left bits.new) }
{
    read_u(bits, n).ok_or(SetFault::NoReading)
}

pub fn ue<B: BitSource>(bits: &mut B, max: u32) -> Result<u32, SetFault>
    requires { max ≤ 4294967294 }
    ensures { ReadsElement NoReading (Ue max) result (B.left bits.old) (B.left bits.new) }
{
    read_ue(bits, max).ok_or(SetFault::NoReading)
}

pub fn se<B: BitSource>(bits: &mut B, min: i32, max: i32) -> Result<i32, SetFault>
    requires least { negsuc 2147483646 ≤ℤ min }
    requires most { max ≤ℤ pos 2147483647 }
    ensures { ReadsElement NoReading (Se min max) result (B.left bits.old) (B.left bits.new) }
{
    read_se(bits, min, max).ok_or(SetFault::NoReading)
}

/// A flag that stands under a condition; where it is absent it is false.
#[tactic(auto, unfolding(exp_golomb::specs::Syntax::outcome_of))]
pub fn flag_when<B: BitSource>(bits: &mut B, present: bool) -> Result<bool, SetFault>
    ensures { Answers part_says (λ x. x) result (B.left bits.new) (outcome_of (when present false (Element Flag Done)) (B.left bits.old)) }
{
    if !present {
        return Ok(false);
    }
    flag(bits)
}
