//! Elements that stand under a condition.
ghost use Rattle.std.specs.Prelude.{◌≡◌, ◌≤◌, ◌<◌, ◌^◌, ◌≤ℤ◌, pos, negsuc, true, List, [], ◌∷◌};
ghost use Rattle.bit_texts.specs.Bits.{binary};
ghost use Rattle.bit_texts.specs.Texts.{Appends, when_text};
ghost use Rattle.exp_golomb.specs.Code.{ue, se};

use exp_golomb::{BitSink, write_se, write_u, write_ue};
use std::alloc::AllocError as Memory;

/// A flag, u(1).
fn write_flag<B: BitSink>(out: &mut B, flag: bool) -> Result<(), Memory>
    ensures { Appends (B.bits out.old) (B.bits out.new) (flag ∷ []) result }
{
    out.put(flag)
}

pub fn write_flag_when<B: BitSink>(out: &mut B, present: bool, flag: bool) -> Result<(), Memory>
    ensures { Appends (B.bits out.old) (B.bits out.new) (when_text present (λ flag. flag ∷ []) flag) result }
{
    if !present {
        return Ok(());
    }
    write_flag(out, flag)
}

pub fn write_u_when<B: BitSink>(out: &mut B, present: bool, value: u32, n: u8) -> Result<(), Memory>
    requires count { n ≤ 32 }
    requires fits { present ≡ true → value < 2 ^ n }
    ensures { Appends (B.bits out.old) (B.bits out.new) (when_text present (binary n) value) result }
{
    if !present {
        return Ok(());
    }
    write_u(out, value, n)
}

pub fn write_ue_when<B: BitSink>(out: &mut B, present: bool, value: u32) -> Result<(), Memory>
    requires { present ≡ true → value ≤ 4294967294 }
    ensures { Appends (B.bits out.old) (B.bits out.new) (when_text present ue value) result }
{
    if !present {
        return Ok(());
    }
    write_ue(out, value)
}

pub fn write_se_when<B: BitSink>(out: &mut B, present: bool, value: i32) -> Result<(), Memory>
    requires { present ≡ true → negsuc 2147483646 ≤ℤ value }
    ensures { Appends (B.bits out.old) (B.bits out.new) (when_text present se value) result }
{
    if !present {
        return Ok(());
    }
    write_se(out, value)
}
