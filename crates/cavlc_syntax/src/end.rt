//! The end of a slice (ITU-T H.264, 7.3.2.11).
ghost use Rattle.std.specs.Prelude.{◌≡◌, [], length, MatchBool};
ghost use Rattle.bit_texts.specs.Cursor.{cursor};
ghost use Rattle.bit_texts.specs.Readings.{Gives};
ghost use Rattle.bit_texts.specs.Texts.{Appends};
ghost use Rattle.cavlc_syntax.specs.Reading.{stop_at};
ghost use Rattle.cavlc_syntax.specs.SliceText.{stop_text};

use exp_golomb::{BitSink, BitSource, read_flag};
use pcm_samples::{read_alignment, write_alignment};
use std::alloc::AllocError as Memory;

/// Takes the stop bit and zero bits up to the byte boundary.
#[tactic(auto, unfolding(crate::specs::Reading::stop_at))]
fn read_stop<B: BitSource>(bits: &mut B) -> Option<()>
    ensures { Gives result (cursor (length (B.taken bits.new)) (B.left bits.new)) (stop_at (cursor (length (B.taken bits.old)) (B.left bits.old))) }
{
    if read_flag(bits)? {
        read_alignment(bits)
    } else {
        None
    }
}

/// Takes the stop bit and zero bits up to the byte boundary, and says whether that was all.
pub fn read_end<B: BitSource>(bits: &mut B) -> bool
    ensures { MatchBool result
        ((B.left bits.old ≡ stop_text (length (B.taken bits.old))) × (B.left bits.new ≡ []))
        (B.left bits.old ≡ stop_text (length (B.taken bits.old)) → ⊥) }
{
    let Some(()) = read_stop(bits) else {
        return false;
    };
    bits.bit().is_none()
}

/// Appends the stop bit and zero bits up to the byte boundary.
pub fn write_end<B: BitSink>(bits: &mut B) -> Result<(), Memory>
    ensures { Appends (B.bits bits.old) (B.bits bits.new) (stop_text (length (B.bits bits.old))) result }
{
    bits.put(true)?;
    write_alignment(bits)
}
