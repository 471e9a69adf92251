//! Zero bits up to the byte boundary.
ghost use Rattle.std.specs.Prelude.{length};
ghost use Rattle.bit_texts.specs.Cursor.{cursor};
ghost use Rattle.bit_texts.specs.Readings.{Gives};
ghost use Rattle.bit_texts.specs.Texts.{Appends};
ghost use Rattle.pcm_samples.specs.Alignment.{alignment};
ghost use Rattle.pcm_samples.specs.Alignment.{alignment_at};

use exp_golomb::{BitSink, BitSource, read_flag};
use std::alloc::AllocError as Memory;

/// Takes zero bits up to the byte boundary. None where others stand there.
pub fn read_alignment<B: BitSource>(bits: &mut B) -> Option<()>
    ensures { Gives result (cursor (length (B.taken bits.new)) (B.left bits.new)) (alignment_at (cursor (length (B.taken bits.old)) (B.left bits.old))) }
{
    while !bits.aligned() {
        if read_flag(bits)? {
            return None;
        }
    }
    Some(())
}

/// Appends zero bits up to the byte boundary.
pub fn write_alignment<B: BitSink>(bits: &mut B) -> Result<(), Memory>
    ensures { Appends (B.bits bits.old) (B.bits bits.new) (alignment (length (B.bits bits.old))) result }
{
    while !bits.aligned() {
        bits.put(false)?;
    }
    Ok(())
}
