//! What stands behind the prediction of a macroblock: coded_block_pattern, transform_size_8x8_flag, mb_qp_delta and the
//! residual (ITU-T H.264, 7.3.5).
ghost use Rattle.std.specs.Prelude.{◌≡◌, ◌≤◌, ◌++◌, option_map};
ghost use Rattle.bit_texts.specs.Texts.{Reads, Appends};
ghost use Rattle.cavlc_mb_residual.specs.Counts.{IsAround};
ghost use Rattle.cavlc_macroblock.specs.MacroblockLayer as layer;

use crate::pattern::{read_pattern_if, read_qp_delta_if, write_pattern_if, write_qp_delta_if};
use crate::transform_size::{read_t8_if, write_t8_if};
use cavlc_mb_residual::{Around, read_residual, write_residual};
use exp_golomb::{BitSink, BitSource};
use h264_types::{Mb, SliceShape};
use std::alloc::AllocError as Memory;

/// Reads what stands behind the prediction of a macroblock, which has that and its type.
pub fn read_coding<B: BitSource>(
    bits: &mut B,
    shape: &SliceShape,
    around: &Around,
    bound: u8,
    mb: &mut Mb,
) -> Option<()>
    requires around { IsAround around.now }
    requires within { bound ≤ 20 }
    ensures reads { Reads (λ m. layer.IsCoding shape.now mb.old bound m × (m ≡ layer.with_coding mb.old m)) (layer.coding_text shape.now around.now mb.old.kind) (B.left bits.old) (option_map (λ _. mb.new) result) (B.left bits.new) }
    ensures kept { B.taken bits.new ++ B.left bits.new ≡ B.taken bits.old ++ B.left bits.old }
{
    mb.pattern = read_pattern_if(bits, mb.kind.sends_pattern(), mb.kind.is_i_nxn())?;
    mb.t8 = read_t8_if(bits, shape.sends_t8_last(mb), mb.t8)?;
    mb.qp_delta = read_qp_delta_if(bits, mb.kind.sends_qp_delta(mb.pattern))?;
    read_residual(bits, around, bound, mb)
}

/// Appends what stands behind the prediction of a macroblock.
pub fn write_coding<B: BitSink>(
    bits: &mut B,
    shape: &SliceShape,
    around: &Around,
    mb: &Mb,
) -> Result<(), Memory>
    requires around { IsAround around.now }
    requires sent { layer.IsCoding shape.now mb.now 20 mb.now }
    ensures { Appends (B.bits bits.old) (B.bits bits.new) (layer.coding_text shape.now around.now mb.now.kind mb.now) result }
{
    write_pattern_if(
        bits,
        mb.kind.sends_pattern(),
        mb.kind.is_i_nxn(),
        mb.pattern,
    )?;
    write_t8_if(bits, shape.sends_t8_last(mb), mb.t8)?;
    write_qp_delta_if(bits, mb.kind.sends_qp_delta(mb.pattern), mb.qp_delta)?;
    write_residual(bits, around, mb)
}
