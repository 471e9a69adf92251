ghost use Rattle.std.specs.Prelude.{◌≡◌, ◌<◌};
ghost use Rattle.h264_types.specs.Partition.{partition_of, sub_part, part_of};
ghost use Rattle.cavlc_inter.specs.Parts.{first_of};
ghost use Rattle.cavlc_inter.specs.InterPrediction as inter;

use h264_types::MbKind;

/// What tells the parts of a macroblock: its type, and sub_mb_type of each quarter.
#[derive(Clone, Copy)]
pub struct Parts {
    pub kind: MbKind,
    pub subs: [u8; 4],
}

impl Parts {
    /// The first quarter of the partition that covers quarter q.
    #[inline(always)]
    pub fn first_quarter(&self, q: u8) -> u8
        requires { q < 4 }
        ensures { result ≡ first_of (partition_of self.now.kind) q }
    {
        let partition = self.kind.partition(q);
        // Rows are two quarters apart, and other partitions begin in the quarter of their own number.
        if self.kind.partition(2) == 1 {
            2 * partition
        } else {
            partition
        }
    }

    /// The first block of the sub-macroblock partition that has block k of a quarter whose sub_mb_type is `sub`.
    fn first_in_quarter(&self, sub: u8, k: u8) -> u8
        requires { k < 4 }
        ensures { result ≡ first_of (sub_part self.now.kind sub) k }
    {
        let part = self.kind.sub_partition(sub, k);
        for m in 0..k {
            if self.kind.sub_partition(sub, m) == part {
                return m;
            }
        }
        k
    }

    /// The first block of the part that has block n.
    #[inline(always)]
    pub fn first_block(&self, n: u8) -> u8
        requires { n < 16 }
        ensures { result ≡ first_of (part_of self.now.kind self.now.subs) n }
    {
        let quarter = n / 4;
        if self.kind.has_sub_macroblocks() {
            let sub = self.subs[usize::from(quarter)];
            return 4 * quarter + self.first_in_quarter(sub, n % 4);
        }
        4 * self.first_quarter(quarter)
    }

    /// Whether a quarter is predicted from list 0 or 1 by what is sent.
    #[inline(always)]
    pub fn uses(&self, list: u8, q: u8) -> bool
        requires { q < 4 }
        ensures { result ≡ inter.uses self.now list q }
    {
        let sub = self.subs[usize::from(q)];
        self.kind.prediction(sub, q).uses(list)
    }

    /// Whether the reference index of a list is sent at quarter q.
    pub fn sends_ref(&self, list: u8, greatest: u8, q: u8) -> bool
        requires { q < 4 }
        ensures { result ≡ inter.sends_ref self.now list greatest q }
    {
        greatest > 0 && self.uses(list, q) && self.first_quarter(q) == q
    }

    /// Whether the vector difference of a list is sent at block n.
    pub fn sends_mvd(&self, list: u8, n: u8) -> bool
        requires { n < 16 }
        ensures { result ≡ inter.sends_mvd self.now list n }
    {
        self.uses(list, n / 4) && self.first_block(n) == n
    }
}
