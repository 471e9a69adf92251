//! transform_size_8x8_flag (ITU-T H.264, 7.3.5).
ghost use Rattle.std.specs.Prelude.{◌≡◌, ◌++◌};
ghost use Rattle.bit_texts.specs.Texts.{Reads, Appends, IsWhen, when_text};
ghost use Rattle.cavlc_macroblock.specs.MacroblockLayer as layer;

use exp_golomb::{BitSink, BitSource, read_flag};
use std::alloc::AllocError as Memory;

/// Reads transform_size_8x8_flag where it is sent, else it is `absent`.
pub fn read_t8_if<B: BitSource>(bits: &mut B, sent: bool, absent: bool) -> Option<bool>
    ensures reads { Reads (IsWhen sent absent layer.IsFlag) (when_text sent layer.flag_text) (B.left bits.old) result (B.left bits.new) }
    ensures kept { B.taken bits.new ++ B.left bits.new ≡ B.taken bits.old ++ B.left bits.old }
{
    if !sent {
        return Some(absent);
    }
    read_flag(bits)
}

/// Appends transform_size_8x8_flag where it is sent.
pub fn write_t8_if<B: BitSink>(bits: &mut B, sent: bool, t8: bool) -> Result<(), Memory>
    ensures { Appends (B.bits bits.old) (B.bits bits.new) (when_text sent layer.flag_text t8) result }
{
    if sent {
        return bits.put(t8);
    }
    Ok(())
}
