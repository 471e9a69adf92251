ghost use Rattle.std.specs.Prelude.{◌≡◌, ◌+◌, ◌<◌, ◌≤◌, ◌⊎◌, ◌++◌, pos, length, replicate, option_map};
ghost use Rattle.bit_texts.specs.Texts.{Reads, Appends};
ghost use Rattle.code_tables.specs.Codes.{word_at};
ghost use Rattle.code_tables.specs.TotalZeros.{total_zeros_list};
ghost use Rattle.code_tables.specs.RunBefore.{run_before_list};
ghost use Rattle.cavlc_residual.specs.Parts.{ReadsPlaced};

use crate::words::{read_code, write_code};
use code_tables::{run_before_table, total_zeros_table};
use exp_golomb::{BitSink, BitSource};
use std::alloc::AllocError as Memory;

/// Reads total_zeros of a block of `max` levels, `total` of which aren't 0.
pub fn read_total_zeros<B: BitSource>(b: &mut B, max: u8, total: u8) -> Option<u8>
    requires size { (max ≡ 4) ⊎ ((max ≡ 15) ⊎ (max ≡ 16)) }
    requires within { total ≤ max }
    ensures reads { Reads (λ z. (total + z ≤ max) × (total ≡ 0 → z ≡ 0)) (word_at (total_zeros_list max total)) (B.left b.old) result (B.left b.new) }
    ensures kept { B.taken b.new ++ B.left b.new ≡ B.taken b.old ++ B.left b.old }
{
    if total == 0 || total == max {
        return Some(0);
    }
    read_code(b, &total_zeros_table(max, total))
}

/// Reads run_before where so many zeros are left.
fn read_run<B: BitSource>(b: &mut B, left: u8) -> Option<u8>
    requires { left ≤ 14 }
    ensures reads { Reads (λ r. r ≤ left) (word_at (run_before_list left)) (B.left b.old) result (B.left b.new) }
    ensures kept { B.taken b.new ++ B.left b.new ≡ B.taken b.old ++ B.left b.old }
{
    if left == 0 {
        return Some(0);
    }
    read_code(b, &run_before_table(left))
}

/// Appends run_before where so many zeros are left, or nothing where none is.
pub fn write_run<B: BitSink>(b: &mut B, left: u8, run: u8) -> Result<(), Memory>
    ensures { Appends (B.bits b.old) (B.bits b.new) (word_at (run_before_list left) run) result }
{
    write_code(b, &run_before_table(left), usize::from(run))
}

/// Reads the runs behind levels other than 0, which have `zeros` zeros between and below them, and puts the levels at
/// their places in a block of levels 0.
pub fn read_runs<B: BitSource>(
    b: &mut B,
    levels: &[i32],
    zeros: u8,
    block: &mut [i32],
) -> Option<()>
    requires some { 0 < length levels.now }
    requires fits { length levels.now + zeros ≤ length block.old }
    requires small { length block.old ≤ 16 }
    requires clear { block.old ≡ replicate (length block.old) (pos 0) }
    ensures reads { ReadsPlaced levels.now zeros (length block.old) (B.left b.old) (option_map (λ _. block.new) result) (B.left b.new) }
    ensures kept { B.taken b.new ++ B.left b.new ≡ B.taken b.old ++ B.left b.old }
{
    let last = levels.len() - 1;
    let mut left = zeros;
    for i in 0..last {
        block[last - i + usize::from(left)] = levels[i];
        let run = read_run(b, left)?;
        left -= run;
    }
    block[usize::from(left)] = levels[last];
    Some(())
}
