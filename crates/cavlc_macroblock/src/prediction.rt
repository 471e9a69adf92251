//! The prediction of intra macroblocks (ITU-T H.264, 7.3.5.1).
ghost use Rattle.std.specs.Prelude.{◌≡◌, ◌<◌, ◌≤◌, ◌++◌, ℕ, true, length, option_map, replicate};
ghost use Rattle.bit_texts.specs.Texts.{Reads, Appends, IsWhen, when_text, AreTurns, turns_text};
ghost use Rattle.h264_types.specs.Kind.{is_intra};
ghost use Rattle.cavlc_macroblock.specs.MacroblockLayer as layer;

use crate::transform_size::{read_t8_if, write_t8_if};
use exp_golomb::{BitSink, BitSource, read_flag, read_u, read_ue, write_u, write_ue};
use h264_types::{Mb, MbKind, SliceShape, mode_count};
use std::alloc::AllocError as Memory;

/// The mode that stands for a prev_intra4x4_pred_mode_flag or prev_intra8x8_pred_mode_flag of 1.
const PREDICTED: u8 = 8;

/// Reads prev_intra4x4_pred_mode_flag, and rem_intra4x4_pred_mode where it is 0, or those of an 8x8 block.
fn read_mode<B: BitSource>(bits: &mut B) -> Option<u8>
    ensures reads { Reads (λ mode. mode ≤ 8) layer.mode_text (B.left bits.old) result (B.left bits.new) }
    ensures kept { B.taken bits.new ++ B.left bits.new ≡ B.taken bits.old ++ B.left bits.old }
{
    if read_flag(bits)? {
        return Some(PREDICTED);
    }
    let mode = read_u(bits, 3)?;
    Some(mode as u8)
}

/// Reads the prediction modes, and puts 0 behind those that are sent.
fn read_modes<B: BitSource>(bits: &mut B, t8: bool, modes: &mut [u8; 16]) -> Option<()>
    ensures reads { Reads (layer.AreModes t8) (layer.modes_text t8) (B.left bits.old) (option_map (λ _. modes.new) result) (B.left bits.new) }
    ensures kept { B.taken bits.new ++ B.left bits.new ≡ B.taken bits.old ++ B.left bits.old }
{
    let count = mode_count(t8);
    modes.fill(0);
    for n in 0..count {
        modes[n] = read_mode(bits)?;
    }
    Some(())
}

/// Reads the prediction modes where they are sent, and else puts modes 0.
fn read_modes_if<B: BitSource>(
    bits: &mut B,
    sent: bool,
    t8: bool,
    modes: &mut [u8; 16],
) -> Option<()>
    ensures reads { Reads (IsWhen sent (replicate 16 0) (layer.AreModes t8)) (when_text sent (layer.modes_text t8)) (B.left bits.old) (option_map (λ _. modes.new) result) (B.left bits.new) }
    ensures kept { B.taken bits.new ++ B.left bits.new ≡ B.taken bits.old ++ B.left bits.old }
{
    if sent {
        return read_modes(bits, t8, modes);
    }
    modes.fill(0);
    Some(())
}

fn write_mode<B: BitSink>(bits: &mut B, mode: u8) -> Result<(), Memory>
    requires { mode ≤ 8 }
    ensures { Appends (B.bits bits.old) (B.bits bits.new) (layer.mode_text mode) result }
{
    if mode == PREDICTED {
        return bits.put(true);
    }
    bits.put(false)?;
    write_u(bits, u32::from(mode), 3)
}

/// Appends the texts of modes.
fn write_each<B: BitSink>(bits: &mut B, modes: &[u8]) -> Result<(), Memory>
    requires { AreTurns (λ (_ : ℕ) mode. mode ≤ 8) (λ s _. s) (length modes.now) 0 modes.now }
    ensures { Appends (B.bits bits.old) (B.bits bits.new) (turns_text (λ (_ : ℕ) mode. layer.mode_text mode) (λ s _. s) 0 modes.now) result }
{
    for mode in modes {
        write_mode(bits, *mode)?;
    }
    Ok(())
}

/// Appends the text of the prediction modes.
fn write_modes<B: BitSink>(bits: &mut B, t8: bool, modes: &[u8; 16]) -> Result<(), Memory>
    requires { layer.AreModes t8 modes.now }
    ensures { Appends (B.bits bits.old) (B.bits bits.new) (layer.modes_text t8 modes.now) result }
{
    write_each(bits, &modes[..mode_count(t8)])
}

/// Appends the text of the prediction modes where they are sent.
fn write_modes_if<B: BitSink>(
    bits: &mut B,
    sent: bool,
    t8: bool,
    modes: &[u8; 16],
) -> Result<(), Memory>
    requires { IsWhen sent (replicate 16 0) (layer.AreModes t8) modes.now }
    ensures { Appends (B.bits bits.old) (B.bits bits.new) (when_text sent (layer.modes_text t8) modes.now) result }
{
    if sent {
        return write_modes(bits, t8, modes);
    }
    Ok(())
}

/// Reads the prediction of a macroblock of an intra type: transform_size_8x8_flag, the prediction modes and
/// intra_chroma_pred_mode. Leaves all else.
pub fn read_intra<B: BitSource>(
    bits: &mut B,
    shape: &SliceShape,
    kind: MbKind,
    mb: &mut Mb,
) -> Option<()>
    requires { is_intra kind ≡ true }
    ensures reads { Reads (λ m. layer.IsIntra shape.now kind m × (m ≡ layer.with_intra mb.old m)) (layer.intra_text shape.now kind) (B.left bits.old) (option_map (λ _. mb.new) result) (B.left bits.new) }
    ensures kept { B.taken bits.new ++ B.left bits.new ≡ B.taken bits.old ++ B.left bits.old }
{
    mb.t8 = read_t8_if(bits, shape.sends_t8_first(kind), false)?;
    read_modes_if(bits, kind.is_i_nxn(), mb.t8, &mut mb.modes)?;
    mb.chroma_mode = read_ue(bits, 3)? as u8;
    Some(())
}

/// Appends the prediction of a macroblock of an intra type.
pub fn write_intra<B: BitSink>(bits: &mut B, shape: &SliceShape, mb: &Mb) -> Result<(), Memory>
    requires intra { is_intra mb.now.kind ≡ true }
    requires sent { layer.IsIntra shape.now mb.now.kind mb.now }
    ensures { Appends (B.bits bits.old) (B.bits bits.new) (layer.intra_text shape.now mb.now.kind mb.now) result }
{
    write_t8_if(bits, shape.sends_t8_first(mb.kind), mb.t8)?;
    write_modes_if(bits, mb.kind.is_i_nxn(), mb.t8, &mb.modes)?;
    write_ue(bits, u32::from(mb.chroma_mode))
}
