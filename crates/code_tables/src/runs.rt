ghost use Rattle.std.specs.Prelude.{◌≡◌};
ghost use Rattle.code_tables.specs.RunBefore.{run_before_code, run_before_list};

use crate::places::PLACES_RUN_BEFORE;
use crate::table::{Code, CodeTable, Groups};

/// run_before (9.2.3) where so many zeros are left. The code word of a run of n stands at place n. The table is empty
/// where none is left.
#[tactic(auto, unfolding(crate::specs::RunBefore::run_before_list))]
pub fn run_before_table(zeros_left: u8) -> CodeTable
    ensures { result ≡ run_before_list zeros_left }
{
    if zeros_left == 0 {
        return CodeTable::empty();
    }
    let row = usize::from(zeros_left.min(7) - 1);
    let end = usize::from(zeros_left.min(14)) + 1;
    CodeTable::new(
        &RUN_BEFORE[row][..end],
        Groups::ByZeros,
        &PLACES_RUN_BEFORE[row],
    )
}

/// The code word of run_before. None exactly where there is no entry in range.
pub fn run_before(zeros_left: u8, run: u8) -> Option<Code>
    ensures { result ≡ run_before_code zeros_left run }
{
    run_before_table(zeros_left).code(usize::from(run))
}

/// run_before, a row for each zerosLeft from 1; the last one for all above 6.
static RUN_BEFORE: [[Code; 15]; 7] = [
    [
        (1, 1),
        (1, 0),
        (0, 0),
        (0, 0),
        (0, 0),
        (0, 0),
        (0, 0),
        (0, 0),
        (0, 0),
        (0, 0),
        (0, 0),
        (0, 0),
        (0, 0),
        (0, 0),
        (0, 0),
    ],
    [
        (1, 1),
        (2, 1),
        (2, 0),
        (0, 0),
        (0, 0),
        (0, 0),
        (0, 0),
        (0, 0),
        (0, 0),
        (0, 0),
        (0, 0),
        (0, 0),
        (0, 0),
        (0, 0),
        (0, 0),
    ],
    [
        (2, 3),
        (2, 2),
        (2, 1),
        (2, 0),
        (0, 0),
        (0, 0),
        (0, 0),
        (0, 0),
        (0, 0),
        (0, 0),
        (0, 0),
        (0, 0),
        (0, 0),
        (0, 0),
        (0, 0),
    ],
    [
        (2, 3),
        (2, 2),
        (2, 1),
        (3, 1),
        (3, 0),
        (0, 0),
        (0, 0),
        (0, 0),
        (0, 0),
        (0, 0),
        (0, 0),
        (0, 0),
        (0, 0),
        (0, 0),
        (0, 0),
    ],
    [
        (2, 3),
        (2, 2),
        (3, 3),
        (3, 2),
        (3, 1),
        (3, 0),
        (0, 0),
        (0, 0),
        (0, 0),
        (0, 0),
        (0, 0),
        (0, 0),
        (0, 0),
        (0, 0),
        (0, 0),
    ],
    [
        (2, 3),
        (3, 0),
        (3, 1),
        (3, 3),
        (3, 2),
        (3, 5),
        (3, 4),
        (0, 0),
        (0, 0),
        (0, 0),
        (0, 0),
        (0, 0),
        (0, 0),
        (0, 0),
        (0, 0),
    ],
    [
        (3, 7),
        (3, 6),
        (3, 5),
        (3, 4),
        (3, 3),
        (3, 2),
        (3, 1),
        (4, 1),
        (5, 1),
        (6, 1),
        (7, 1),
        (8, 1),
        (9, 1),
        (10, 1),
        (11, 1),
    ],
];
