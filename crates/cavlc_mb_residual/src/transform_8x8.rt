//! The luma levels under the 8x8 transform: the 64 of a quarter are sent as four lists, which take turns (7.3.5.3.1).
ghost use Rattle.std.specs.Prelude.{◌≡◌, ◌+◌, ◌*◌, ◌/◌, ◌%◌, ◌<◌, ℕ, pos, length, slice_index_or};
ghost use Rattle.h264_types.specs.Macroblock.{luma_block};
ghost use Rattle.cavlc_mb_residual.specs.LumaBlocks as lists;

use h264_types::Mb;

/// Every fourth level of a quarter, from level i on: the list that is sent of its block i.
pub fn every_fourth(quarter: &[i32; 64], i: usize) -> [i32; 16]
    requires { i < 4 }
    ensures { result ≡ lists.every_fourth quarter.now i }
{
    let mut list = [0; 16];
    for k in 0..16usize {
        list[k] = quarter[4 * k + i];
    }
    list
}

/// The levels of a quarter whose four lists stand one after another.
fn take_turns(lists: &[i32; 64]) -> [i32; 64]
    ensures levels { (j : ℕ) → j < 64 → slice_index_or result j (pos 0) ≡ slice_index_or lists.now (16 * (j % 4) + j / 4) (pos 0) }
    ensures size { length lists.now ≡ 64 }
{
    let mut levels = [0; 64];
    for j in 0..64usize {
        levels[j] = lists[16 * (j % 4) + j / 4];
    }
    levels
}

/// Puts the levels of the sixteen luma lists, which stand one after another, at their places.
pub fn place_lists(mb: &mut Mb)
    ensures lists { lists.luma_blocks mb.new ≡ lists.sixteen (luma_block mb.old) }
    ensures rest { mb.new ≡ record mb.old { luma = mb.new.luma } }
{
    if mb.t8 {
        mb.luma = [
            take_turns(&mb.luma[0]),
            take_turns(&mb.luma[1]),
            take_turns(&mb.luma[2]),
            take_turns(&mb.luma[3]),
        ];
    }
}
