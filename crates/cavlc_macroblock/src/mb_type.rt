//! mb_type (ITU-T H.264, Tables 7-11, 7-13 and 7-14).
ghost use Rattle.std.specs.Prelude.{◌≡◌, ◌+◌, ◌≤◌, ◌++◌};
ghost use Rattle.bit_texts.specs.Texts.{Reads, Appends};
ghost use Rattle.exp_golomb.specs.Code.{ue};
ghost use Rattle.cavlc_macroblock.specs.MbType as types;

use exp_golomb::{BitSink, BitSource, read_ue, write_ue};
use h264_types::{Mb, MbKind, SliceKind};
use std::alloc::AllocError as Memory;

/// The mb_type of I_NxN in a slice of this kind: the intra types stand behind the others.
fn first_intra(slice: SliceKind) -> u32
    ensures { result ≡ types.first_intra slice }
{
    match slice {
        SliceKind::I => 0,
        SliceKind::P => 5,
        SliceKind::B => 23,
    }
}

/// The type with this mb_type in a slice of this kind, and whether it is P_8x8ref0.
fn type_at(slice: SliceKind, mb_type: u32) -> (MbKind, bool)
    requires { mb_type ≤ types.first_intra slice + 25 }
    ensures is { types.IsTypeIn slice result }
    ensures number { types.type_of slice result.0 result.1 ≡ mb_type }
{
    let first = first_intra(slice);
    if mb_type >= first {
        return (MbKind::Intra((mb_type - first) as u8), false);
    }
    if slice == SliceKind::B {
        return (MbKind::B(mb_type as u8), false);
    }
    if mb_type == 4 {
        return (MbKind::P(3), true);
    }
    (MbKind::P(mb_type as u8), false)
}

/// Reads mb_type in a slice of this kind: the type of the macroblock, and whether it is P_8x8ref0. None where the bits
/// left begin with no type of the slice.
pub fn read_type<B: BitSource>(bits: &mut B, slice: SliceKind) -> Option<(MbKind, bool)>
    ensures reads { Reads (types.IsTypeIn slice) (λ type. ue (types.type_of slice type.0 type.1)) (B.left bits.old) result (B.left bits.new) }
    ensures kept { B.taken bits.new ++ B.left bits.new ≡ B.taken bits.old ++ B.left bits.old }
{
    let mb_type = read_ue(bits, first_intra(slice) + 25)?;
    Some(type_at(slice, mb_type))
}

/// mb_type of a macroblock that isn't skipped in a slice of this kind.
fn mb_type_of(slice: SliceKind, mb: &Mb) -> u32
    ensures value { result ≡ types.type_of slice mb.now.kind mb.now.ref0 }
    ensures most { result ≤ 278 }
{
    match mb.kind {
        MbKind::Intra(number) => first_intra(slice) + u32::from(number),
        MbKind::P(number) => { if mb.ref0 { 4 } else { u32::from(number) } }
        MbKind::B(number) => u32::from(number),
        MbKind::Skip => 0,
    }
}

/// Appends mb_type.
pub fn write_type<B: BitSink>(bits: &mut B, slice: SliceKind, mb: &Mb) -> Result<(), Memory>
    ensures { Appends (B.bits bits.old) (B.bits bits.new) (types.type_text slice mb.now) result }
{
    write_ue(bits, mb_type_of(slice, mb))
}
