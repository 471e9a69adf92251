// Where the parts of a macroblock begin.
ghost use Rattle.std.specs.Prelude.{◌≡◌, ◌<◌, ◌≤◌};
ghost use Rattle.h264_types.specs.Partition.{partition_of, sub_part, part_of};
ghost use Rattle.h264_types.specs.Valid.{list_is_used};
ghost use Rattle.cavlc_inter.specs.Parts.{first_of};

use h264_types::{Mb, MbKind};

/// The first quarter of the partition that covers quarter q.
#[inline(always)]
pub(crate) fn first_quarter(kind: MbKind, q: u8) -> u8
    requires { q < 4 }
    ensures value { result ≡ first_of (partition_of kind) q }
    ensures most { result ≤ q }
{
    let partition = kind.partition(q);
    // Rows are two quarters apart, and other partitions begin in the quarter of their own number.
    if kind.partition(2) == 1 {
        2 * partition
    } else {
        partition
    }
}

/// The first block of the sub-macroblock partition that has block k of a quarter whose sub_mb_type is `sub`.
#[inline(always)]
fn first_in_quarter(kind: MbKind, sub: u8, k: u8) -> u8
    requires { k < 4 }
    ensures value { result ≡ first_of (sub_part kind sub) k }
    ensures most { result ≤ k }
{
    let part = kind.sub_partition(sub, k);
    for m in 0..k {
        if kind.sub_partition(sub, m) == part {
            return m;
        }
    }
    k
}

/// The first 4x4 block of the part that has block n.
#[inline(always)]
pub(crate) fn first_block(mb: &Mb, n: u8) -> u8
    requires { n < 16 }
    ensures value { result ≡ first_of (part_of mb.now.kind mb.now.subs) n }
    ensures most { result ≤ n }
{
    let quarter = n / 4;
    if mb.kind.has_sub_macroblocks() {
        let sub = mb.subs[usize::from(quarter)];
        return 4 * quarter + first_in_quarter(mb.kind, sub, n % 4);
    }
    4 * first_quarter(mb.kind, quarter)
}

/// Whether a quarter is predicted from list 0 or 1 by what is sent.
#[inline(always)]
pub(crate) fn uses(mb: &Mb, list: u8, q: u8) -> bool
    requires { q < 4 }
    ensures { result ≡ list_is_used mb.now list q }
{
    let sub = mb.subs[usize::from(q)];
    mb.kind.prediction(sub, q).uses(list)
}
