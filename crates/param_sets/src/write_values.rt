//! Elements that stand several times, and the end of a payload.
ghost use Rattle.std.specs.Prelude.{◌≡◌, OnOk, if◌then◌else◌, [], ◌∷◌, length, List, Bool, ℤ};
ghost use Rattle.std.specs.List.{flat_map, AllByRecursion};
ghost use Rattle.bit_texts.specs.Texts.{Appended};
ghost use Rattle.exp_golomb.specs.Code.{se};
ghost use Rattle.param_sets.specs.ScalingLists.{HasCode, scaling_list_text, scaling_lists_text};
ghost use Rattle.param_sets.specs.TrailingBits.{trailing_bits};

use crate::elements::Elements;
use exp_golomb::{BitSink, write_se};
use std::alloc::AllocError as Memory;

/// A flag that stands under a condition.
pub fn write_flag_when<B: BitSink>(out: &mut B, present: bool, flag: bool) -> Result<(), Memory>
    ensures { OnOk result (Appended (B.bits out.old) (B.bits out.new) (if present then flag ∷ [] else [])) }
{
    if present { out.put(flag) } else { Ok(()) }
}

pub fn write_bits<B: BitSink>(out: &mut B, bits: &[bool]) -> Result<(), Memory>
    ensures { OnOk result (Appended (B.bits out.old) (B.bits out.new) bits.now) }
{
    for bit in bits {
        out.put(*bit)?;
    }
    Ok(())
}

/// Each value as se(v).
pub fn write_values<B: BitSink>(out: &mut B, values: &[i32]) -> Result<(), Memory>
    requires { AllByRecursion HasCode values.now }
    ensures { OnOk result (Appended (B.bits out.old) (B.bits out.new) (flat_map se values.now)) }
{
    for value in values {
        write_se(out, *value)?;
    }
    Ok(())
}

/// A scaling list (7.3.2.1.1.1) by its delta codes.
fn write_scaling_list<B: BitSink>(out: &mut B, deltas: &[i32]) -> Result<(), Memory>
    requires { AllByRecursion HasCode deltas.now }
    ensures { OnOk result (Appended (B.bits out.old) (B.bits out.new) (scaling_list_text deltas.now)) }
{
    out.put(!deltas.is_empty())?;
    write_values(out, deltas)
}

pub fn write_scaling_lists<B: BitSink>(out: &mut B, lists: &[Elements<i32>]) -> Result<(), Memory>
    requires { AllByRecursion (λ (list : List ℤ). AllByRecursion HasCode list) lists.now }
    ensures { OnOk result (Appended (B.bits out.old) (B.bits out.new) (scaling_lists_text lists.now)) }
{
    for list in lists {
        write_scaling_list(out, list.as_slice())?;
    }
    Ok(())
}

/// rbsp_trailing_bits (7.3.2.11): a 1 bit, and 0 bits up to the end of the byte.
pub fn write_trailing_bits<B: BitSink>(out: &mut B) -> Result<(), Memory>
    ensures { OnOk result (Appended (B.bits out.old) (B.bits out.new) (trailing_bits (length (B.bits out.old)))) }
{
    out.put(true)?;
    while !out.aligned() {
        out.put(false)?;
    }
    Ok(())
}
