//! The starts of the segments of a slice, and the samples that stand between two of them (ITU-T H.264, 9.3.1.2).
ghost use Rattle.std.specs.Prelude.{◌≡◌, ◌≤◌, ◌++◌, ◌∷◌, ◌%◌, Bool, true, false, ℕ, List, [], length, take, nat_lt, MatchOption, IfSome, IfNone, OnSome};
ghost use Rattle.bit_texts.specs.Bits.{number};
ghost use Rattle.cabac_contexts.specs.Coders.{HasGiven};
ghost use Rattle.cabac_contexts.specs.States.{HasStates};
ghost use Rattle.cabac_macroblock.specs.MacroblockLayer.{without_samples};
ghost use Rattle.h264_types.specs.Kind.{is_i_pcm};
ghost use Rattle.h264_types.specs.declared.macroblock.Mb.{Mb};
ghost use Rattle.h264_types.specs.declared.slice_shape.SliceShape.{SliceShape};
ghost use Rattle.pcm_samples.specs.Samples.{AreSamples};
ghost use Rattle.slice_data.specs.Reading.{NoList};
ghost use Rattle.cabac_syntax.specs.SliceData.{HasData, AreDataFrom};
ghost use Rattle.cabac_syntax.specs.Standing.{Knows, GoesOn, IsNext, IsBehind, HasSamples, IsSampled};

use crate::ones::read_ones;
use cabac_contexts::{Contexts, InCoder};
use cabac_engine::Decoder;
use exp_golomb::BitSource;
use h264_types::Mb;
use pcm_samples::{read_alignment, read_samples};

/// Starts a segment on the bits that are left, with the contexts as they are. None where no segment's code stands there.
fn start_segment<B: BitSource>(contexts: Contexts, bits: B) -> Option<InCoder<B>>
    ensures going { IfSome result (λ coder. nat_lt coder.decoder.range 256 ≡ false) }
    ensures given { IfSome result (λ coder. (states : ℕ → ℕ × Bool) → HasStates states contexts → HasGiven (B.left bits) states [] coder) }
    ensures kept { IfSome result (λ coder. coder.decoder.taken ++ coder.decoder.left ≡ B.taken bits ++ B.left bits) }
    ensures none { IfNone result (9 ≤ length (B.left bits) → 510 ≤ number (take 9 (B.left bits))) }
{
    match Decoder::start(bits) {
        Ok(decoder) => Some(InCoder::new(contexts, decoder)),
        Err(_) => None,
    }
}

/// Takes the one bits before the first segment, and starts it.
pub fn read_first<B: BitSource>(contexts: Contexts, bits: B) -> Option<InCoder<B>>
    ensures going { IfSome result (λ coder. nat_lt coder.decoder.range 256 ≡ false) }
    ensures knows { (start : ℕ → ℕ × Bool) (shape : SliceShape) → HasStates start contexts
        → MatchOption result (NoList HasData (AreDataFrom false start) shape (length (B.taken bits)) (B.left bits))
        (λ coder. Knows start shape (length (B.taken bits)) (B.left bits) (IsNext shape []) coder) }
{
    let mut bits = bits;
    read_ones(&mut bits)?;
    start_segment(contexts, bits)
}

/// Takes zero bits up to the byte boundary, and the samples of an I_PCM macroblock.
fn read_pcm<B: BitSource>(bits: &mut B, samples: &mut [u8; 384]) -> Option<()>
    ensures samples { MatchOption result
        ((xs : List ℕ) (rest : List Bool) → AreSamples xs → HasSamples (length (B.taken bits.old)) xs rest (B.left bits.old) → ⊥)
        (λ _. AreSamples samples.new × HasSamples (length (B.taken bits.old)) samples.new (B.left bits.new) (B.left bits.old)) }
    ensures aligned { OnSome result (length (B.taken bits.new) % 8 ≡ 0) }
{
    read_alignment(bits)?;
    read_samples(bits, samples)
}

/// Goes on behind the bins of a macroblock: where it is I_PCM its samples are read, and the next segment starts. None where
/// these don't stand there.
#[inline(always)]
pub fn read_behind<B: BitSource>(coder: InCoder<B>, mb: &mut Mb) -> Option<InCoder<B>>
    requires { nat_lt coder.decoder.range 256 ≡ is_i_pcm mb.old.kind }
    ensures going { IfSome result (λ next. nat_lt next.decoder.range 256 ≡ false) }
    ensures sampled { OnSome result (IsSampled mb.old mb.new) }
    ensures knows { (start : ℕ → ℕ × Bool) (shape : SliceShape) (pos : ℕ) (all : List Bool) (done : List Mb)
        → Knows start shape pos all (IsBehind shape done mb.old) coder → without_samples mb.old ≡ mb.old
        → MatchOption result (NoList HasData (AreDataFrom false start) shape pos all)
        (λ next. Knows start shape pos all (GoesOn shape (done ++ mb.new ∷ [])) next) }
{
    if !mb.kind.is_i_pcm() {
        return Some(coder);
    }
    let (contexts, bits) = coder.into_parts();
    let mut bits = bits;
    read_pcm(&mut bits, &mut mb.pcm)?;
    start_segment(contexts, bits)
}
