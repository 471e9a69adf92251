//! What stands behind the last segment of a slice (ITU-T H.264, 7.3.2.10).
ghost use Rattle.std.specs.Prelude.{◌≡◌, ◌*◌, false, ℕ, List, [], length, replicate, MatchBool, MatchOption};
ghost use Rattle.bit_texts.specs.Bits.{EndsInOne};
ghost use Rattle.cabac_syntax.specs.Standing.{IsTail, AreWords};

use exp_golomb::{BitSource, read_u};
use pcm_samples::read_alignment;

/// Whether the last bit that was taken is a 1 (rbsp_stop_one_bit), and zero bits up to the byte boundary are left,
/// cabac_zero_words, and nothing else. These are taken.
pub fn read_tail<B: BitSource>(bits: &mut B) -> bool
    ensures { MatchBool result
        (EndsInOne (B.taken bits.old) × IsTail (length (B.taken bits.old)) (B.left bits.old) × (B.left bits.new ≡ []))
        (EndsInOne (B.taken bits.old) → IsTail (length (B.taken bits.old)) (B.left bits.old) → ⊥) }
{
    if !bits.last_taken() {
        return false;
    }
    let Some(()) = read_alignment(bits) else {
        return false;
    };
    match read_zero_words(bits) {
        Some(()) => true,
        None => false,
    }
}

/// Takes cabac_zero_words. None where others are left.
fn read_zero_words<B: BitSource>(bits: &mut B) -> Option<()>
    ensures { MatchOption result
        (AreWords (B.left bits.old) → ⊥)
        (λ _. AreWords (B.left bits.old) × (B.left bits.new ≡ [])) }
{
    while let Some(first) = bits.bit() {
        if first {
            return None;
        }
        let others = read_u(bits, 15)?;
        if others != 0 {
            return None;
        }
    }
    Some(())
}
