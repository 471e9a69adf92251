//! Laws of the intervals of bins, and of the codes of segments.

ghost use Rattle.std.specs.Prelude.{◌≡◌, Bool, List, ◌++◌, ◌⊎◌};
ghost use Rattle.cabac_interval.specs.Interval.{Kind, Bin, interval, IsOpen, IsSegment, IsCode};
ghost use Rattle.cabac_interval.specs.Laws.{LiesWithin, FollowsRule, IsClosingCode};

/// The interval of bins lies within that of their first ones.
pub fn intervals_are_nested()
    ensures { (earlier later : List Bin)
        → (IsOpen (earlier ++ later) ⊎ IsSegment (earlier ++ later))
        → LiesWithin (interval (earlier ++ later)) (interval earlier) }
{}

/// A list of bits is the code of at most one list of bins, where the kind of each bin is a function of the bins before it.
pub fn a_code_is_of_one_list_of_bins()
    ensures { (rule : List Bin → Kind) (bins others : List Bin) (code : List Bool)
        → FollowsRule rule bins → FollowsRule rule others
        → IsCode bins code → IsCode others code
        → bins ≡ others }
{}

/// The bins of a segment have a code whose last bit is 1.
pub fn each_segment_has_a_closing_code()
    ensures { (bins : List Bin) → IsSegment bins → (code : List Bool) × IsClosingCode bins code }
{}

/// The bins of a segment have at most one code whose last bit is 1.
pub fn one_code_ends_in_one()
    ensures { (bins : List Bin) (code other : List Bool)
        → IsClosingCode bins code → IsClosingCode bins other
        → code ≡ other }
{}
