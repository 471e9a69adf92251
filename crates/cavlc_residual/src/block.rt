ghost use Rattle.std.specs.Prelude.{◌≡◌, ◌≢◌, ◌↔◌, true, ◌+◌, ◌*◌, ◌≤◌, ◌++◌, pos, length, sum, replicate, IfSome, option_map};
ghost use Rattle.std.specs.List.{AllByRecursion};
ghost use Rattle.arrayvec.specs.ArrayVec.{array_vec_len};
ghost use Rattle.bit_texts.specs.Texts.{Reads, Appends};
ghost use Rattle.code_tables.specs.Codes.{word_at};
ghost use Rattle.code_tables.specs.CoeffToken.{coeff_token_list};
ghost use Rattle.cavlc_residual.specs.Coefficients.{magnitude};
ghost use Rattle.cavlc_residual.specs.Block.{IsShape, trailing_ones, total_coeff, levels_text, parts_text, block_text, is_beyond, IsBlock};
ghost use Rattle.cavlc_residual.specs.Parts.{AreLevels};
ghost use Rattle.cavlc_residual.specs.Places.{gaps, AreFalling};

use crate::beyond::levels_above;
use crate::coefficients::Coefficients;
use crate::fault::BlockFault;
use crate::parts::{extra_first, read_nonzero, read_token, suffix_length_first};
use crate::runs::{read_runs, read_total_zeros};
use crate::words::{write_code, write_code_and};
use crate::writing::{count_ones, count_zeros, separate, signs_of, write_coefficients, write_runs};
use code_tables::{coeff_token_table, total_zeros_table};
use exp_golomb::{BitSink, BitSource};
use h264_types::Levels;
use std::alloc::AllocError as Memory;

/// Reads a block of as many levels as the list that is lent has, into that list, and answers TotalCoeff.
/// None exactly where no block in range has a text, with no level_prefix above `bound`, that begins the bits left;
/// what the list then holds isn't said.
pub fn read_levels<B: BitSource>(b: &mut B, nc: i8, levels: &mut [i32], bound: u8) -> Option<u8>
    requires shape { IsShape nc (length levels.old) }
    requires within { bound ≤ 20 }
    ensures reads { Reads (IsBlock (length levels.old) bound) (block_text nc) (B.left b.old) (option_map (λ total. levels.new) result) (B.left b.new) }
    ensures total { IfSome result (λ total. total ≡ total_coeff levels.new) }
    ensures kept { B.taken b.new ++ B.left b.new ≡ B.taken b.old ++ B.left b.old }
{
    levels.fill(0);
    read_onto_zeros(b, nc, levels, bound)
}

/// Reads a block into a list of levels 0, as `read_levels` does.
pub fn read_onto_zeros<B: BitSource>(b: &mut B, nc: i8, levels: &mut [i32], bound: u8) -> Option<u8>
    requires shape { IsShape nc (length levels.old) }
    requires within { bound ≤ 20 }
    requires clear { levels.old ≡ replicate (length levels.old) (pos 0) }
    ensures reads { Reads (IsBlock (length levels.old) bound) (block_text nc) (B.left b.old) (option_map (λ total. levels.new) result) (B.left b.new) }
    ensures total { IfSome result (λ total. total ≡ total_coeff levels.new) }
    ensures kept { B.taken b.new ++ B.left b.new ≡ B.taken b.old ++ B.left b.old }
{
    let max = levels.len() as u8;
    let (total, ones) = read_token(b, nc, max)?;
    if total == 0 {
        return Some(0);
    }
    let mut coefficients = Coefficients::new();
    read_nonzero(b, total, ones, bound, &mut coefficients)?;
    let zeros = read_total_zeros(b, max, total)?;
    read_runs(b, coefficients.as_slice(), zeros, levels)?;
    Some(total)
}

/// Reads a block of `max` levels, as `read_levels` does.
pub fn read_block<B: BitSource>(b: &mut B, nc: i8, max: u8, bound: u8) -> Option<Levels>
    requires shape { IsShape nc max }
    requires within { bound ≤ 20 }
    ensures reads { Reads (IsBlock max bound) (block_text nc) (B.left b.old) (option_map (λ v. v.items) result) (B.left b.new) }
    ensures kept { B.taken b.new ++ B.left b.new ≡ B.taken b.old ++ B.left b.old }
{
    let mut block = [0i32; 16];
    let levels = &mut block[..usize::from(max)];
    read_levels(b, nc, levels, bound)?;
    Some(levels_of(levels))
}

/// The levels of a list.
fn levels_of(list: &[i32]) -> Levels
    requires { length list.now ≤ 64 }
    ensures { result.items ≡ list.now }
{
    let mut levels = Levels::new();
    for level in list {
        levels.push(*level);
    }
    levels
}

/// Appends coeff_token and the text of the levels other than 0.
fn write_nonzero<B: BitSink>(b: &mut B, nc: i8, levels: &[i32]) -> Result<(), Memory>
    requires few { length levels.now ≤ 16 }
    requires levels { AreLevels (length levels.now, trailing_ones levels.now) 20 levels.now }
    ensures { Appends (B.bits b.old) (B.bits b.new) (word_at (coeff_token_list nc) (4 * length levels.now + trailing_ones levels.now) ++ levels_text levels.now) result }
{
    let total = levels.len() as u8;
    let ones = count_ones(levels);
    let (signs, others) = levels.split_at(usize::from(ones));
    write_code_and(
        b,
        &coeff_token_table(nc),
        usize::from(4 * total + ones),
        signs_of(signs),
        ones,
    )?;
    write_coefficients(
        b,
        others,
        suffix_length_first(total, ones),
        extra_first(ones),
    )
}

/// Appends the text of a block with these levels other than 0, which stand at these places.
fn write_parts<B: BitSink>(
    b: &mut B,
    nc: i8,
    max: u8,
    levels: &[i32],
    places: &[u8],
) -> Result<(), Memory>
    requires max { max ≤ 16 }
    requires levels { AreLevels (length levels.now, trailing_ones levels.now) 20 levels.now }
    requires pairs { length places.now ≡ length levels.now }
    requires falling { AreFalling 16 places.now }
    ensures { Appends (B.bits b.old) (B.bits b.new) (parts_text nc max levels.now (gaps places.now)) result }
{
    write_nonzero(b, nc, levels)?;
    let zeros = count_zeros(places);
    let table = total_zeros_table(max, levels.len() as u8);
    write_code(b, &table, usize::from(zeros))?;
    write_runs(b, zeros, places)
}

/// Appends the text of a block of these levels, as `read_levels` reads it. Beyond is answered exactly where some level
/// needs a level_prefix above `bound`, and then nothing is written. Where memory runs out a front of the text is written.
pub fn write_levels<B: BitSink>(
    b: &mut B,
    nc: i8,
    levels: &[i32],
    bound: u8,
) -> Result<(), BlockFault>
    requires shape { IsShape nc (length levels.now) }
    requires small { AllByRecursion (λ l. magnitude l ≤ 65535) levels.now }
    requires within { bound ≤ 20 }
    ensures beyond { (result ≡ Err BlockFault.Beyond) ↔ (is_beyond bound levels.now ≡ true) }
    ensures unwritten { result ≡ Err BlockFault.Beyond → B.bits b.new ≡ B.bits b.old }
    ensures written { result ≢ Err BlockFault.Beyond → Appends (B.bits b.old) (B.bits b.new) (block_text nc levels.now) result }
{
    let parts = separate(levels);
    let count = usize::from(parts.count);
    let coefficients = &parts.levels[..count];
    if levels_above(coefficients, bound) {
        return Err(BlockFault::Beyond);
    }
    write_parts(
        b,
        nc,
        levels.len() as u8,
        coefficients,
        &parts.places[..count],
    )?;
    Ok(())
}

/// Appends the text of a block whose levels are all 0.
pub fn write_empty<B: BitSink>(b: &mut B, nc: i8, levels: &[i32]) -> Result<(), Memory>
    requires { total_coeff levels.now ≡ 0 }
    ensures { Appends (B.bits b.old) (B.bits b.new) (block_text nc levels.now) result }
{
    write_code(b, &coeff_token_table(nc), 0)
}

/// Appends the text of a block, as `write_levels` does.
pub fn write_block<B: BitSink>(
    b: &mut B,
    nc: i8,
    levels: &Levels,
    bound: u8,
) -> Result<(), BlockFault>
    requires shape { IsShape nc (array_vec_len levels.now) }
    requires small { AllByRecursion (λ l. magnitude l ≤ 65535) levels.now.items }
    requires within { bound ≤ 20 }
    ensures beyond { (result ≡ Err BlockFault.Beyond) ↔ (is_beyond bound levels.now.items ≡ true) }
    ensures unwritten { result ≡ Err BlockFault.Beyond → B.bits b.new ≡ B.bits b.old }
    ensures written { result ≢ Err BlockFault.Beyond → Appends (B.bits b.old) (B.bits b.new) (block_text nc levels.now.items) result }
{
    write_levels(b, nc, levels.as_slice(), bound)
}
