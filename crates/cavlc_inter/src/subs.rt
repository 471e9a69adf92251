ghost use Rattle.std.specs.Prelude.{◌≡◌, ◌≤◌, ◌++◌, option_map};
ghost use Rattle.bit_texts.specs.Texts.{Reads, Appends};
ghost use Rattle.exp_golomb.specs.Code.{ue};
ghost use Rattle.h264_types.specs.Valid.{sub_bound};
ghost use Rattle.cavlc_inter.specs.InterPrediction as inter;

use exp_golomb::{BitSink, BitSource, read_ue, write_ue};
use h264_types::MbKind;
use std::alloc::AllocError as Memory;

/// The greatest sub_mb_type of a macroblock of this type; 0 where it has none.
fn greatest_sub(kind: MbKind) -> u8
    ensures value { result ≡ sub_bound kind }
    ensures most { result ≤ 12 }
{
    match kind {
        MbKind::P(3) => 3,
        MbKind::B(22) => 12,
        _ => 0,
    }
}

/// Reads one sub_mb_type.
fn read_sub<B: BitSource>(bits: &mut B, kind: MbKind) -> Option<u8>
    ensures reads { Reads (λ sub. sub ≤ sub_bound kind) ue (B.left bits.old) result (B.left bits.new) }
    ensures kept { B.taken bits.new ++ B.left bits.new ≡ B.taken bits.old ++ B.left bits.old }
{
    let sub = read_ue(bits, u32::from(greatest_sub(kind)))?;
    Some(sub as u8)
}

/// Reads the four sub_mb_type.
fn read_subs<B: BitSource>(bits: &mut B, kind: MbKind, subs: &mut [u8; 4]) -> Option<()>
    ensures reads { Reads (inter.AreSubs kind) inter.subs_text (B.left bits.old) (option_map (λ _. subs.new) result) (B.left bits.new) }
    ensures kept { B.taken bits.new ++ B.left bits.new ≡ B.taken bits.old ++ B.left bits.old }
{
    for q in 0..4usize {
        subs[q] = read_sub(bits, kind)?;
    }
    Some(())
}

/// Reads the four sub_mb_type where they are sent, and else puts 0.
pub fn read_subs_if<B: BitSource>(bits: &mut B, kind: MbKind, subs: &mut [u8; 4]) -> Option<()>
    ensures reads { Reads (inter.AreSubsIf kind) (inter.subs_text_if kind) (B.left bits.old) (option_map (λ _. subs.new) result) (B.left bits.new) }
    ensures kept { B.taken bits.new ++ B.left bits.new ≡ B.taken bits.old ++ B.left bits.old }
{
    if kind.has_sub_macroblocks() {
        return read_subs(bits, kind, subs);
    }
    subs.fill(0);
    Some(())
}

/// Appends the four sub_mb_type.
fn write_subs<B: BitSink>(bits: &mut B, subs: &[u8; 4]) -> Result<(), Memory>
    ensures { Appends (B.bits bits.old) (B.bits bits.new) (inter.subs_text subs.now) result }
{
    for sub in subs {
        write_ue(bits, u32::from(*sub))?;
    }
    Ok(())
}

/// Appends the four sub_mb_type where they are sent.
pub fn write_subs_if<B: BitSink>(bits: &mut B, kind: MbKind, subs: &[u8; 4]) -> Result<(), Memory>
    ensures { Appends (B.bits bits.old) (B.bits bits.new) (inter.subs_text_if kind subs.now) result }
{
    if kind.has_sub_macroblocks() {
        return write_subs(bits, subs);
    }
    Ok(())
}
