//! coded_block_pattern and mb_qp_delta (ITU-T H.264, 7.3.5).
ghost use Rattle.std.specs.Prelude.{◌≡◌, ◌+◌, ◌<◌, ◌++◌, pos};
ghost use Rattle.bit_texts.specs.Texts.{Reads, Appends, IsWhen, when_text};
ghost use Rattle.exp_golomb.specs.Code.{se};
ghost use Rattle.cavlc_macroblock.specs.MacroblockLayer as layer;

use code_tables::{code_of_pattern, pattern_of};
use exp_golomb::{BitSink, BitSource, read_se, read_ue, write_se, write_ue};
use h264_types::Pattern;
use std::alloc::AllocError as Memory;

/// Reads coded_block_pattern, me(v) (9.1.2), of I_NxN or of P and B macroblocks.
fn read_pattern<B: BitSource>(bits: &mut B, is_nxn: bool) -> Option<Pattern>
    ensures reads { Reads layer.IsPattern (layer.pattern_text is_nxn) (B.left bits.old) result (B.left bits.new) }
    ensures kept { B.taken bits.new ++ B.left bits.new ≡ B.taken bits.old ++ B.left bits.old }
{
    let place = read_ue(bits, 47)?;
    pattern_of(is_nxn, place as u8)
}

/// Reads coded_block_pattern where it is sent, else it is 0.
pub fn read_pattern_if<B: BitSource>(bits: &mut B, sent: bool, is_nxn: bool) -> Option<Pattern>
    ensures reads { Reads (IsWhen sent layer.no_pattern layer.IsPattern) (when_text sent (layer.pattern_text is_nxn)) (B.left bits.old) result (B.left bits.new) }
    ensures kept { B.taken bits.new ++ B.left bits.new ≡ B.taken bits.old ++ B.left bits.old }
{
    if sent {
        return read_pattern(bits, is_nxn);
    }
    Some(Pattern { luma: 0, chroma: 0 })
}

/// Appends coded_block_pattern.
fn write_pattern<B: BitSink>(bits: &mut B, is_nxn: bool, pattern: Pattern) -> Result<(), Memory>
    requires { layer.IsPattern pattern }
    ensures { Appends (B.bits bits.old) (B.bits bits.new) (layer.pattern_text is_nxn pattern) result }
{
    let Some(place) = code_of_pattern(is_nxn, pattern) else {
        unreachable!();
    };
    write_ue(bits, u32::from(place))
}

/// Appends coded_block_pattern where it is sent.
pub fn write_pattern_if<B: BitSink>(
    bits: &mut B,
    sent: bool,
    is_nxn: bool,
    pattern: Pattern,
) -> Result<(), Memory>
    requires { IsWhen sent layer.no_pattern layer.IsPattern pattern }
    ensures { Appends (B.bits bits.old) (B.bits bits.new) (when_text sent (layer.pattern_text is_nxn) pattern) result }
{
    if sent {
        return write_pattern(bits, is_nxn, pattern);
    }
    Ok(())
}

/// Reads mb_qp_delta where it is sent, else it is 0.
pub fn read_qp_delta_if<B: BitSource>(bits: &mut B, sent: bool) -> Option<i8>
    ensures reads { Reads (IsWhen sent (pos 0) layer.IsQpDelta) (when_text sent se) (B.left bits.old) result (B.left bits.new) }
    ensures kept { B.taken bits.new ++ B.left bits.new ≡ B.taken bits.old ++ B.left bits.old }
{
    if !sent {
        return Some(0);
    }
    let delta = read_se(bits, -26, 25)?;
    Some(delta as i8)
}

/// Appends mb_qp_delta where it is sent.
pub fn write_qp_delta_if<B: BitSink>(bits: &mut B, sent: bool, delta: i8) -> Result<(), Memory>
    requires { IsWhen sent (pos 0) layer.IsQpDelta delta }
    ensures { Appends (B.bits bits.old) (B.bits bits.new) (when_text sent se delta) result }
{
    if sent {
        return write_se(bits, i32::from(delta));
    }
    Ok(())
}
