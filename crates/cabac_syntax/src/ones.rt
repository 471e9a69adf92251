//! One bits up to the byte boundary.
ghost use Rattle.std.specs.Prelude.{◌≡◌, ◌++◌, ◌%◌, Bool, List, length, MatchOption, OnSome};
ghost use Rattle.bit_texts.specs.Texts.{Appends};
ghost use Rattle.cabac_syntax.specs.SliceData.{ones};

use exp_golomb::{BitSink, BitSource, read_flag};
use std::alloc::AllocError as Memory;

/// Takes one bits up to the byte boundary (cabac_alignment_one_bit). None where others stand there.
pub fn read_ones<B: BitSource>(bits: &mut B) -> Option<()>
    ensures ones { MatchOption result
        ((rest : List Bool) → B.left bits.old ≡ ones (length (B.taken bits.old)) ++ rest → ⊥)
        (λ _. B.left bits.old ≡ ones (length (B.taken bits.old)) ++ B.left bits.new) }
    ensures aligned { OnSome result (length (B.taken bits.new) % 8 ≡ 0) }
{
    while !bits.aligned() {
        if !read_flag(bits)? {
            return None;
        }
    }
    Some(())
}

/// Appends one bits up to the byte boundary (cabac_alignment_one_bit).
pub fn write_ones<B: BitSink>(bits: &mut B) -> Result<(), Memory>
    ensures { Appends (B.bits bits.old) (B.bits bits.new) (ones (length (B.bits bits.old))) result }
{
    while !bits.aligned() {
        bits.put(true)?;
    }
    Ok(())
}
