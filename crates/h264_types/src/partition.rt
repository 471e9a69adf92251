//! Partitions of inter macroblocks, and what each is predicted from.
ghost use Rattle.std.specs.Prelude.{◌≡◌};

use crate::macroblock::MbKind;

/// The reference lists that a partition is predicted from, of those that send their references and vectors: direct,
/// skipped and intra ones send none (Tables 7-13, 7-14, 7-17 and 7-18: Pred_L0, Pred_L1, BiPred).
#[derive(Clone, Copy, Debug, PartialEq, Eq)]
pub enum Prediction {
    Unsent,
    L0,
    L1,
    Bi,
}

/// For B types 4 and 5, 6 and 7, .. to 20 and 21, what the first partition is predicted from (Table 7-14).
const FIRST_OF_B: [Prediction; 9] = [
    Prediction::L0,
    Prediction::L1,
    Prediction::L0,
    Prediction::L1,
    Prediction::L0,
    Prediction::L1,
    Prediction::Bi,
    Prediction::Bi,
    Prediction::Bi,
];

/// The same for the second partition.
const SECOND_OF_B: [Prediction; 9] = [
    Prediction::L0,
    Prediction::L1,
    Prediction::L1,
    Prediction::L0,
    Prediction::Bi,
    Prediction::Bi,
    Prediction::L0,
    Prediction::L1,
    Prediction::Bi,
];

/// For sub-macroblock types in B (Table 7-18).
const SUBS_OF_B: [Prediction; 13] = [
    Prediction::Unsent,
    Prediction::L0,
    Prediction::L1,
    Prediction::Bi,
    Prediction::L0,
    Prediction::L0,
    Prediction::L1,
    Prediction::L1,
    Prediction::Bi,
    Prediction::Bi,
    Prediction::L0,
    Prediction::L1,
    Prediction::Bi,
];

impl Prediction {
    ghost use Rattle.h264_types.specs.Partition.{uses_list};

    /// Whether list 0 or 1 is one of them.
    pub fn uses(self, list: u8) -> bool
        ensures { result ≡ uses_list self list }
    {
        match self {
            Prediction::Unsent => false,
            Prediction::L0 => list == 0,
            Prediction::L1 => list == 1,
            Prediction::Bi => true,
        }
    }
}

impl MbKind {
    ghost use Rattle.h264_types.specs.Partition.{partition_of, prediction_of, sub_part};

    /// mbPartIdx of the partition that covers a quarter, 0 where the macroblock has one alone (6.4.13.4).
    pub fn partition(self, quarter: u8) -> u8
        ensures { result ≡ partition_of self quarter }
    {
        match self {
            MbKind::P(1) => quarter / 2,
            MbKind::P(2) => quarter % 2,
            MbKind::P(3) | MbKind::B(22) => quarter,
            MbKind::B(number) if number >= 4 => {
                if number % 2 == 0 {
                    quarter / 2
                } else {
                    quarter % 2
                }
            }
            _ => 0,
        }
    }

    /// What a quarter is predicted from, where `sub` is its sub_mb_type, which counts for B_8x8 alone.
    pub fn prediction(self, sub: u8, quarter: u8) -> Prediction
        ensures { result ≡ prediction_of self sub quarter }
    {
        match self {
            MbKind::P(_) => Prediction::L0,
            MbKind::B(0) => Prediction::Unsent,
            MbKind::B(1) => Prediction::L0,
            MbKind::B(2) => Prediction::L1,
            MbKind::B(3) => Prediction::Bi,
            MbKind::B(22) => SUBS_OF_B
                .get(sub as usize)
                .copied()
                .unwrap_or(Prediction::Unsent),
            MbKind::B(number) => {
                let table = if self.partition(quarter) == 0 {
                    &FIRST_OF_B
                } else {
                    &SECOND_OF_B
                };
                let place = (number as usize - 4) / 2;
                table.get(place).copied().unwrap_or(Prediction::Unsent)
            }
            MbKind::Skip | MbKind::Intra(_) => Prediction::Unsent,
        }
    }

    /// subMbPartIdx of the part that has 4x4 block 0 to 3 of a quarter whose sub_mb_type is `sub` (Tables 7-17, 7-18).
    pub fn sub_partition(self, sub: u8, block: u8) -> u8
        ensures { result ≡ sub_part self sub block }
    {
        match self {
            MbKind::P(_) => match sub {
                1 => block / 2,
                2 => block % 2,
                3 => block,
                _ => 0,
            },
            MbKind::B(_) => match sub {
                4 | 6 | 8 => block / 2,
                5 | 7 | 9 => block % 2,
                0..=3 => 0,
                _ => block,
            },
            MbKind::Skip | MbKind::Intra(_) => 0,
        }
    }
}
