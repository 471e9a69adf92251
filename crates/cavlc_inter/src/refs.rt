ghost use Rattle.std.specs.Prelude.{◌≡◌, ◌<◌, ◌≤◌, ◌++◌, true, length, option_map};
ghost use Rattle.bit_texts.specs.Texts.{Reads, Appends, when_text};
ghost use Rattle.exp_golomb.specs.Code.{te};
ghost use Rattle.cavlc_inter.specs.InterPrediction as inter;

use crate::parts::Parts;
use exp_golomb::{BitSink, BitSource, read_te, write_te};
use std::alloc::AllocError as Memory;

/// Reads the reference index of the quarter that follows those of `before`, where it is sent, and else repeats it.
fn read_ref<B: BitSource>(
    bits: &mut B,
    parts: &Parts,
    list: u8,
    greatest: u8,
    before: &[u8],
) -> Option<u8>
    requires { length before.now < 4 }
    ensures reads { Reads (inter.IsRef parts.now list greatest before.now) (inter.ref_text parts.now list greatest before.now) (B.left bits.old) result (B.left bits.new) }
    ensures kept { B.taken bits.new ++ B.left bits.new ≡ B.taken bits.old ++ B.left bits.old }
{
    let q = before.len() as u8;
    if !parts.sends_ref(list, greatest, q) {
        let first = parts.first_quarter(q);
        return Some(before.get(usize::from(first)).copied().unwrap_or(0));
    }
    let index = read_te(bits, u32::from(greatest))?;
    Some(index as u8)
}

/// Reads the reference indices of a list.
pub fn read_refs<B: BitSource>(
    bits: &mut B,
    parts: &Parts,
    list: u8,
    greatest: u8,
    refs: &mut [u8; 4],
) -> Option<()>
    ensures reads { Reads (inter.AreRefs parts.now list greatest) (inter.refs_text parts.now list greatest) (B.left bits.old) (option_map (λ _. refs.new) result) (B.left bits.new) }
    ensures kept { B.taken bits.new ++ B.left bits.new ≡ B.taken bits.old ++ B.left bits.old }
{
    for q in 0..4usize {
        refs[q] = read_ref(bits, parts, list, greatest, &refs[..q])?;
    }
    Some(())
}

/// Appends the reference index of a quarter, where it is sent.
fn write_ref<B: BitSink>(
    bits: &mut B,
    parts: &Parts,
    list: u8,
    greatest: u8,
    q: u8,
    index: u8,
) -> Result<(), Memory>
    requires q { q < 4 }
    requires index { inter.sends_ref parts.now list greatest q ≡ true → index ≤ greatest }
    ensures { Appends (B.bits bits.old) (B.bits bits.new) (when_text (inter.sends_ref parts.now list greatest q) (te greatest) index) result }
{
    if parts.sends_ref(list, greatest, q) {
        return write_te(bits, u32::from(index), u32::from(greatest));
    }
    Ok(())
}

/// Appends the reference indices of a list.
pub fn write_refs<B: BitSink>(
    bits: &mut B,
    parts: &Parts,
    list: u8,
    greatest: u8,
    refs: &[u8; 4],
) -> Result<(), Memory>
    requires { inter.AreRefs parts.now list greatest refs.now }
    ensures { Appends (B.bits bits.old) (B.bits bits.new) (inter.refs_text parts.now list greatest refs.now) result }
{
    for q in 0..4u8 {
        write_ref(bits, parts, list, greatest, q, refs[usize::from(q)])?;
    }
    Ok(())
}
