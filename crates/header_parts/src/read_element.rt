//! Single syntax elements, where a fault says that none stands there.
ghost use Rattle.std.specs.Prelude.{◌≤◌, ◌≤ℤ◌, pos, negsuc, false, ◌≡◌, ◌++◌, IfOk};
ghost use Rattle.exp_golomb.specs.Code.{Flag, U, Ue, Se};
ghost use Rattle.exp_golomb.specs.Syntax.{ReadsElement, Answers, outcome_of};
ghost use Rattle.header_parts.specs.Refusal.{header_says};
ghost use Rattle.header_parts.specs.When.{element_when};
ghost use Rattle.header_parts.specs.declared.fault.HeaderFault.TheVariants.{NoReading};

use crate::fault::HeaderFault;
use exp_golomb::{BitSource, read_flag, read_se, read_u, read_ue};

pub fn ue<B: BitSource>(bits: &mut B, max: u32) -> Result<u32, HeaderFault>
    requires { max ≤ 4294967294 }
    ensures reads { ReadsElement NoReading (Ue max) result (B.left bits.old) (B.left bits.new) }
    ensures kept { B.taken bits.new ++ B.left bits.new ≡ B.taken bits.old ++ B.left bits.old }
{
    read_ue(bits, max).ok_or(HeaderFault::NoReading)
}

pub fn u<B: BitSource>(bits: &mut B, n: u8) -> Result<u32, HeaderFault>
    requires { n ≤ 32 }
    ensures reads { ReadsElement NoReading (U n) result (B.left bits.old) (B.left bits.new) }
    ensures kept { B.taken bits.new ++ B.left bits.new ≡ B.taken bits.old ++ B.left bits.old }
{
    read_u(bits, n).ok_or(HeaderFault::NoReading)
}

pub fn se<B: BitSource>(bits: &mut B, min: i32, max: i32) -> Result<i32, HeaderFault>
    requires least { negsuc 2147483646 ≤ℤ min }
    requires most { max ≤ℤ pos 2147483647 }
    ensures reads { ReadsElement NoReading (Se min max) result (B.left bits.old) (B.left bits.new) }
    ensures kept { B.taken bits.new ++ B.left bits.new ≡ B.taken bits.old ++ B.left bits.old }
{
    read_se(bits, min, max).ok_or(HeaderFault::NoReading)
}

/// An element of ue(v) of at most 255.
pub fn number<B: BitSource>(bits: &mut B) -> Result<u8, HeaderFault>
    ensures reads { ReadsElement NoReading (Ue 255) result (B.left bits.old) (B.left bits.new) }
    ensures kept { B.taken bits.new ++ B.left bits.new ≡ B.taken bits.old ++ B.left bits.old }
{
    let value = ue(bits, 255)?;
    Ok(value as u8)
}

// Elements that stand under a condition; where they are absent they are false or 0.

#[tactic(auto, unfolding(exp_golomb::specs::Syntax::outcome_of, crate::specs::When::element_when))]
pub fn flag_when<B: BitSource>(bits: &mut B, present: bool) -> Result<bool, HeaderFault>
    ensures answers { Answers header_says (λ x. x) result (B.left bits.new) (outcome_of (element_when present Flag false) (B.left bits.old)) }
    ensures kept { B.taken bits.new ++ B.left bits.new ≡ B.taken bits.old ++ B.left bits.old }
{
    if !present {
        return Ok(false);
    }
    read_flag(bits).ok_or(HeaderFault::NoReading)
}

#[tactic(auto, unfolding(exp_golomb::specs::Syntax::outcome_of, crate::specs::When::element_when))]
pub fn u_when<B: BitSource>(bits: &mut B, present: bool, n: u8) -> Result<u32, HeaderFault>
    requires { n ≤ 32 }
    ensures answers { Answers header_says (λ x. x) result (B.left bits.new) (outcome_of (element_when present (U n) 0) (B.left bits.old)) }
    ensures kept { B.taken bits.new ++ B.left bits.new ≡ B.taken bits.old ++ B.left bits.old }
{
    if !present {
        return Ok(0);
    }
    u(bits, n)
}

#[tactic(auto, unfolding(exp_golomb::specs::Syntax::outcome_of, crate::specs::When::element_when))]
pub fn ue_when<B: BitSource>(bits: &mut B, present: bool, max: u32) -> Result<u32, HeaderFault>
    requires { max ≤ 4294967294 }
    ensures most { IfOk result (λ value. value ≤ max) }
    ensures answers { Answers header_says (λ x. x) result (B.left bits.new) (outcome_of (element_when present (Ue max) 0) (B.left bits.old)) }
    ensures kept { B.taken bits.new ++ B.left bits.new ≡ B.taken bits.old ++ B.left bits.old }
{
    if !present {
        return Ok(0);
    }
    ue(bits, max)
}

#[tactic(auto, unfolding(exp_golomb::specs::Syntax::outcome_of, crate::specs::When::element_when))]
pub fn se_when<B: BitSource>(
    bits: &mut B,
    present: bool,
    min: i32,
    max: i32,
) -> Result<i32, HeaderFault>
    requires least { negsuc 2147483646 ≤ℤ min }
    requires most { max ≤ℤ pos 2147483647 }
    ensures answers { Answers header_says (λ x. x) result (B.left bits.new) (outcome_of (element_when present (Se min max) (pos 0)) (B.left bits.old)) }
    ensures kept { B.taken bits.new ++ B.left bits.new ≡ B.taken bits.old ++ B.left bits.old }
{
    if !present {
        return Ok(0);
    }
    se(bits, min, max)
}
