//! The starts and ends of the segments of a slice that is written (ITU-T H.264, 9.3.4.1 and 9.3.4.5).
ghost use Rattle.std.specs.Prelude.{◌≡◌, ◌++◌, ◌∷◌, Bool, true, false, ℕ, List, [], length, nat_lt, IfOk, OnOk};
ghost use Rattle.cabac_contexts.specs.Coders.{HasTaken};
ghost use Rattle.cabac_contexts.specs.States.{HasStates};
ghost use Rattle.cabac_engine.specs.Encoding.{IsEnded};
ghost use Rattle.h264_types.specs.Kind.{is_i_pcm};
ghost use Rattle.h264_types.specs.declared.macroblock.Mb.{Mb};
ghost use Rattle.h264_types.specs.declared.slice_shape.SliceShape.{SliceShape};
ghost use Rattle.cabac_syntax.specs.SliceData.{AreDataFrom};
ghost use Rattle.cabac_syntax.specs.Standing.{GoesOn, IsNext};
ghost use Rattle.cabac_syntax.specs.Written.{Wrote, IsPut};

use crate::ones::write_ones;
use cabac_contexts::{Contexts, OutCoder};
use cabac_engine::{BinSink, Encoder};
use exp_golomb::BitSink;
use h264_types::Mb;
use pcm_samples::{write_alignment, write_samples};
use std::alloc::{AllocError as Memory, Global};

/// Starts a segment behind the bits of a sink, with the contexts as they are.
fn start_segment<B: BitSink>(alloc: Global, contexts: Contexts, bits: B) -> OutCoder<B>
    ensures going { nat_lt result.encoder.range 256 ≡ false }
    ensures none { (states : ℕ → ℕ × Bool) → HasStates states contexts → HasTaken (B.bits bits) states [] result }
{
    OutCoder::new(contexts, Encoder::start(alloc, bits))
}

/// Writes the one bits before the first segment, and starts it.
pub fn write_first<B: BitSink>(
    alloc: Global,
    contexts: Contexts,
    bits: B,
) -> Result<OutCoder<B>, Memory>
    ensures going { IfOk result (λ coder. nat_lt coder.encoder.range 256 ≡ false) }
    ensures wrote { (start : ℕ → ℕ × Bool) (shape : SliceShape) → HasStates start contexts
        → IfOk result (λ coder. Wrote start shape (B.bits bits) (GoesOn shape []) coder) }
{
    let mut bits = bits;
    write_ones(&mut bits)?;
    Ok(start_segment(alloc, contexts, bits))
}

/// Writes end_of_slice_flag, which is 0, behind so many macroblocks, if there are some.
#[inline(always)]
pub fn write_flag<B: BitSink>(coder: &mut OutCoder<B>, count: u32) -> Result<(), Memory>
    requires { nat_lt coder.old.encoder.range 256 ≡ false }
    ensures going { OnOk result (nat_lt coder.new.encoder.range 256 ≡ false) }
    ensures wrote { (start : ℕ → ℕ × Bool) (shape : SliceShape) (before : List Bool) (done : List Mb) → count ≡ length done
        → Wrote start shape before (GoesOn shape done) coder.old → OnOk result (Wrote start shape before (IsNext shape done) coder.new) }
{
    if count == 0 {
        return Ok(());
    }
    coder.end(false)
}

/// Goes on behind the bins of a macroblock: where it is I_PCM its samples are written, and the next segment starts.
#[inline(always)]
pub fn write_behind<B: BitSink>(
    alloc: Global,
    coder: OutCoder<B>,
    mb: &Mb,
) -> Result<OutCoder<B>, Memory>
    requires over { nat_lt coder.encoder.range 256 ≡ is_i_pcm mb.now.kind }
    requires ended { is_i_pcm mb.now.kind ≡ true → IsEnded coder.encoder }
    ensures going { IfOk result (λ next. nat_lt next.encoder.range 256 ≡ false) }
    ensures wrote { (start : ℕ → ℕ × Bool) (shape : SliceShape) (before : List Bool) (done : List Mb)
        → length mb.now.pcm ≡ 384 → Wrote start shape before (IsPut shape done mb.now) coder
        → IfOk result (λ next. Wrote start shape before (GoesOn shape (done ++ mb.now ∷ [])) next) }
{
    if !mb.kind.is_i_pcm() {
        return Ok(coder);
    }
    let (contexts, bits) = coder.close()?;
    let mut bits = bits;
    write_alignment(&mut bits)?;
    write_samples(&mut bits, &mb.pcm)?;
    Ok(start_segment(alloc, contexts, bits))
}

/// Writes the last end_of_slice_flag, which is 1, and zero bits up to the byte boundary. The last bit of the last segment is
/// rbsp_stop_one_bit.
pub fn write_last<B: BitSink>(coder: OutCoder<B>) -> Result<B, Memory>
    requires { nat_lt coder.encoder.range 256 ≡ false }
    ensures { (start : ℕ → ℕ × Bool) (shape : SliceShape) (before : List Bool) (done : List Mb)
        → Wrote start shape before (GoesOn shape done) coder
        → IfOk result (λ sink. (text : List Bool) × AreDataFrom true start shape (length before) done text × (B.bits sink ≡ before ++ text)) }
{
    let mut coder = coder;
    coder.end(true)?;
    let (_, bits) = coder.close()?;
    let mut bits = bits;
    write_alignment(&mut bits)?;
    Ok(bits)
}
