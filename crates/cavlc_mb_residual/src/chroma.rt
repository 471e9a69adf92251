ghost use Rattle.std.specs.Prelude.{◌≡◌, ◌+◌, ◌<◌, ◌≤◌, ◌++◌, [], length, take, option_map, slice_index_or, IfSome};
ghost use Rattle.arrayvec.specs.ArrayVec.{array_vec_len};
ghost use Rattle.bit_texts.specs.Texts.{Reads, Appends};
ghost use Rattle.cavlc_mb_residual.specs.Counts.{AreSides, AreSmall};
ghost use Rattle.cavlc_mb_residual.specs.Residual.{counted, IsChromaBlock, chroma_block_text, AreChromaBlocks, chroma_text};

use crate::counts::{Sides, count_levels};
use crate::lists::{read_list, write_counted};
use crate::nc::nc;
use arrayvec::ArrayVec;
use exp_golomb::{BitSink, BitSource};
use mb_neighbours::At;
use std::alloc::AllocError as Memory;

/// What the AC blocks so far of a chroma component count.
type ChromaCounts = ArrayVec<u8, 4>;

/// Reads the AC block that follows those of `counts`.
fn read_chroma_block<B: BitSource>(
    bits: &mut B,
    sides: &Sides,
    coded: bool,
    bound: u8,
    counts: &mut ChromaCounts,
    blocks: &mut [[i32; 15]; 4],
) -> Option<()>
    requires sides { AreSides sides.now }
    requires within { bound ≤ 20 }
    requires room { array_vec_len counts.old < 4 }
    requires small { AreSmall counts.old.items }
    ensures reads { Reads (IsChromaBlock coded bound counts.old.items) (chroma_block_text sides.now coded counts.old.items) (B.left bits.old) (option_map (λ _. slice_index_or blocks.new (array_vec_len counts.old) []) result) (B.left bits.new) }
    ensures counts { IfSome result (λ _. counts.new.items ≡ counted counts.old.items (slice_index_or blocks.new (array_vec_len counts.old) [])) }
    ensures small { IfSome result (λ _. AreSmall counts.new.items) }
    ensures len { IfSome result (λ _. array_vec_len counts.new ≡ array_vec_len counts.old + 1) }
    ensures before { take (array_vec_len counts.old) blocks.new ≡ take (array_vec_len counts.old) blocks.old }
    ensures size { length blocks.new ≡ 4 }
    ensures kept { B.taken bits.new ++ B.left bits.new ≡ B.taken bits.old ++ B.left bits.old }
{
    let n = counts.len() as u8;
    let nc = nc(sides, counts.as_slice(), At::Chroma4(n));
    let mut block = [0i32; 15];
    let total = read_list(bits, coded, nc, &mut block, bound)?;
    blocks[usize::from(n)] = block;
    counts.push(total);
    Some(())
}

/// Reads the AC blocks of a chroma component, which are sent where `coded` holds.
pub fn read_chroma<B: BitSource>(
    bits: &mut B,
    sides: &Sides,
    coded: bool,
    bound: u8,
    blocks: &mut [[i32; 15]; 4],
) -> Option<()>
    requires sides { AreSides sides.now }
    requires within { bound ≤ 20 }
    ensures reads { Reads (AreChromaBlocks coded bound) (chroma_text sides.now coded) (B.left bits.old) (option_map (λ _. blocks.new) result) (B.left bits.new) }
    ensures kept { B.taken bits.new ++ B.left bits.new ≡ B.taken bits.old ++ B.left bits.old }
{
    if !coded {
        *blocks = [[0; 15]; 4];
        return Some(());
    }
    let mut counts = ChromaCounts::new();
    for _n in 0..4u8 {
        read_chroma_block(bits, sides, coded, bound, &mut counts, blocks)?;
    }
    Some(())
}

/// Appends the text of the AC block that follows those of `counts`.
fn write_chroma_block<B: BitSink>(
    bits: &mut B,
    sides: &Sides,
    coded: bool,
    counts: &mut ChromaCounts,
    block: &[i32; 15],
) -> Result<(), Memory>
    requires sides { AreSides sides.now }
    requires room { array_vec_len counts.old < 4 }
    requires small { AreSmall counts.old.items }
    requires block { IsChromaBlock coded 20 counts.old.items block.now }
    ensures text { Appends (B.bits bits.old) (B.bits bits.new) (chroma_block_text sides.now coded counts.old.items block.now) result }
    ensures counts { counts.new.items ≡ counted counts.old.items block.now }
    ensures small { AreSmall counts.new.items }
    ensures len { array_vec_len counts.new ≡ array_vec_len counts.old + 1 }
{
    let n = counts.len() as u8;
    let nc = nc(sides, counts.as_slice(), At::Chroma4(n));
    let total = count_levels(block);
    counts.push(total);
    write_counted(bits, coded, nc, total, block)
}

/// Appends the text of the AC blocks of a chroma component.
pub fn write_chroma<B: BitSink>(
    bits: &mut B,
    sides: &Sides,
    coded: bool,
    blocks: &[[i32; 15]; 4],
) -> Result<(), Memory>
    requires sides { AreSides sides.now }
    requires blocks { AreChromaBlocks coded 20 blocks.now }
    ensures { Appends (B.bits bits.old) (B.bits bits.new) (chroma_text sides.now coded blocks.now) result }
{
    if !coded {
        return Ok(());
    }
    let mut counts = ChromaCounts::new();
    for block in blocks {
        write_chroma_block(bits, sides, coded, &mut counts, block)?;
    }
    Ok(())
}
