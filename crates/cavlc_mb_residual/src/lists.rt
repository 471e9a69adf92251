ghost use Rattle.std.specs.Prelude.{◌≡◌, ◌≤◌, ◌++◌, pos, length, replicate, option_map, IfSome};
ghost use Rattle.bit_texts.specs.Texts.{Reads, Appends};
ghost use Rattle.cavlc_residual.specs.Block.{IsShape, total_coeff};
ghost use Rattle.cavlc_mb_residual.specs.Residual.{IsList, list_text};

use cavlc_residual::{BlockFault, read_onto_zeros, write_empty, write_levels};
use exp_golomb::{BitSink, BitSource};
use std::alloc::AllocError as Memory;

/// Reads a list of levels where it is sent, into one of levels 0. Answers TotalCoeff.
pub fn read_list<B: BitSource>(
    bits: &mut B,
    coded: bool,
    nc: i8,
    levels: &mut [i32],
    bound: u8,
) -> Option<u8>
    requires shape { IsShape nc (length levels.old) }
    requires within { bound ≤ 20 }
    requires clear { levels.old ≡ replicate (length levels.old) (pos 0) }
    ensures reads { Reads (IsList coded (length levels.old) bound) (list_text coded nc) (B.left bits.old) (option_map (λ _. levels.new) result) (B.left bits.new) }
    ensures total { IfSome result (λ total. total ≡ total_coeff levels.new) }
    ensures most { IfSome result (λ total. total ≤ 16) }
    ensures kept { B.taken bits.new ++ B.left bits.new ≡ B.taken bits.old ++ B.left bits.old }
{
    if coded {
        return read_onto_zeros(bits, nc, levels, bound);
    }
    Some(0)
}

/// Appends the text of a list of levels where it is sent.
pub fn write_list<B: BitSink>(
    bits: &mut B,
    coded: bool,
    nc: i8,
    levels: &[i32],
) -> Result<(), Memory>
    requires shape { IsShape nc (length levels.now) }
    requires list { IsList coded (length levels.now) 20 levels.now }
    ensures { Appends (B.bits bits.old) (B.bits bits.new) (list_text coded nc levels.now) result }
{
    if !coded {
        return Ok(());
    }
    match write_levels(bits, nc, levels, 20) {
        Ok(()) => Ok(()),
        Err(BlockFault::Memory) => Err(Memory),
        Err(BlockFault::Beyond) => unreachable!(),
    }
}

/// Appends the text of a list of levels where it is sent, as `write_list` does. That of a list which has none, as `total`
/// tells, is its coeff_token.
pub fn write_counted<B: BitSink>(
    bits: &mut B,
    coded: bool,
    nc: i8,
    total: u8,
    levels: &[i32],
) -> Result<(), Memory>
    requires shape { IsShape nc (length levels.now) }
    requires list { IsList coded (length levels.now) 20 levels.now }
    requires none { total ≡ 0 → total_coeff levels.now ≡ 0 }
    ensures { Appends (B.bits bits.old) (B.bits bits.new) (list_text coded nc levels.now) result }
{
    if coded && total == 0 {
        return write_empty(bits, nc, levels);
    }
    write_list(bits, coded, nc, levels)
}
