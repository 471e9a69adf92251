ghost use Rattle.std.specs.Prelude.{◌≡◌, ◌≤◌, ◌<◌};
ghost use Rattle.std.specs.List.{AllByRecursion, list_any};
ghost use Rattle.cavlc_residual.specs.Block.{is_beyond as beyond_test};
ghost use Rattle.cavlc_mb_residual.specs.LumaBlocks.{sent_block, luma_blocks};
ghost use Rattle.cavlc_mb_residual.specs.MacroblockResidual as layer;

use crate::transform_8x8::every_fourth;
use cavlc_residual::is_beyond as is_list_beyond;
use h264_types::Mb;

/// Whether some level of the list that is sent of luma block n needs a level_prefix above the bound.
fn is_block_beyond(mb: &Mb, n: u8, bound: u8) -> bool
    requires n { n < 16 }
    requires small { layer.AreSmallLevels (sent_block mb.now n) }
    requires within { bound ≤ 20 }
    ensures { result ≡ beyond_test bound (sent_block mb.now n) }
{
    if mb.t8 {
        let block = every_fourth(&mb.luma[usize::from(n / 4)], usize::from(n % 4));
        return is_list_beyond(&block, bound);
    }
    is_list_beyond(mb.block(n), bound)
}

fn is_luma_beyond(mb: &Mb, bound: u8) -> bool
    requires small { AllByRecursion layer.AreSmallLevels (luma_blocks mb.now) }
    requires within { bound ≤ 20 }
    ensures { result ≡ list_any (beyond_test bound) (luma_blocks mb.now) }
{
    for n in 0..16u8 {
        if is_block_beyond(mb, n, bound) {
            return true;
        }
    }
    false
}

fn is_chroma_dc_beyond(lists: &[[i32; 4]; 2], bound: u8) -> bool
    requires small { AllByRecursion layer.AreSmallLevels lists.now }
    requires within { bound ≤ 20 }
    ensures { result ≡ list_any (beyond_test bound) lists.now }
{
    for levels in lists {
        if is_list_beyond(levels, bound) {
            return true;
        }
    }
    false
}

fn is_chroma_beyond(blocks: &[[i32; 15]; 4], bound: u8) -> bool
    requires small { AllByRecursion layer.AreSmallLevels blocks.now }
    requires within { bound ≤ 20 }
    ensures { result ≡ list_any (beyond_test bound) blocks.now }
{
    for levels in blocks {
        if is_list_beyond(levels, bound) {
            return true;
        }
    }
    false
}

/// Whether some level of a macroblock needs a level_prefix above the bound.
pub fn is_beyond(mb: &Mb, bound: u8) -> bool
    requires within { bound ≤ 20 }
    requires small { layer.HasSmallLevels mb.now }
    ensures { result ≡ layer.is_beyond_mb bound mb.now }
{
    is_list_beyond(&mb.dc, bound)
        || is_luma_beyond(mb, bound)
        || is_chroma_dc_beyond(&mb.chroma_dc, bound)
        || is_chroma_beyond(&mb.chroma_ac[0], bound)
        || is_chroma_beyond(&mb.chroma_ac[1], bound)
}
