ghost use Rattle.std.specs.Prelude.{◌≡◌, ◌⊎◌, ◌<◌, ◌≤◌, ◌+◌, ◌-◌, [], length, slice_index_or, pos, reverse, option_map, Bool, false, true, OnOk, OnSome, IfSome, OnErr};
ghost use Rattle.binarisation.specs.BinString.{Reads, Writes};
ghost use Rattle.cabac_residual.specs.Block.{is_nonzero, mark, marks_from, marks_below, behind_last, AreBelow, marks_of};
ghost use Rattle.cabac_residual.specs.Contexts.{IsShape};

use crate::contexts::{last_context, significance_context};
use arrayvec::ArrayVec;
use cabac_engine::{BinSink, BinSource};
use std::alloc::AllocError as Memory;

/// The significant places of a block, in scan order.
pub type Places = ArrayVec<u8, 64>;

/// Writes whether a place is significant, and where it is, whether it is the last one.
#[tactic(auto, unfolding(crate::specs::Block::mark))]
#[inline(always)]
fn write_mark<S: BinSink>(
    s: &mut S,
    cat: u8,
    field: bool,
    place: u8,
    is_significant: bool,
    is_last: bool,
) -> Result<(), Memory>
    requires going { S.over s.old ≡ false }
    requires cat { cat < 6 }
    requires place { place < 63 }
    requires few { (cat ≡ 5) ⊎ (place < 15) }
    requires last { is_last ≡ true → is_significant ≡ true }
    ensures writes { OnOk result (Writes S.step (mark cat field place) (is_significant, is_last) s.old s.new) }
    ensures going { OnOk result (S.over s.new ≡ false) }
    ensures err { OnErr result (S.over s.new ≡ true) }
{
    s.bin(significance_context(cat, field, place), is_significant)?;
    if !is_significant {
        return Ok(());
    }
    s.bin(last_context(cat, field, place), is_last)
}

/// Reads the significance map of a block of `max` levels, in which one is other than 0.
#[inline(always)]
pub fn read_places<S: BinSource>(s: &mut S, cat: u8, field: bool, max: u8) -> Option<Places>
    requires going { S.over s.old ≡ false }
    requires shape { IsShape cat max }
    ensures reads { Reads S.step (marks_from cat field [] 0 (max - 1)) (option_map (λ places. marks_below (behind_last (reverse places.items)) (reverse places.items)) result) s.old s.new }
    ensures going { OnSome result (S.over s.new ≡ false) }
    ensures below { IfSome result (λ places. AreBelow max (reverse places.items)) }
{
    let mut places = Places::new();
    for place in 0..max - 1 {
        let is_significant = s.bin(significance_context(cat, field, place))?;
        if !is_significant {
            continue;
        }
        places.push(place);
        let is_last = s.bin(last_context(cat, field, place))?;
        if is_last {
            return Some(places);
        }
    }
    places.push(max - 1);
    Some(places)
}

/// Whether a level is other than 0.
#[inline(always)]
fn is_nonzero(level: i32) -> bool
    ensures { result ≡ is_nonzero level }
{
    level.unsigned_abs() > 0
}

/// Writes the significance map of a block, of which the last level other than 0 stands at this place.
#[inline(always)]
pub fn write_marks<S: BinSink>(
    s: &mut S,
    cat: u8,
    field: bool,
    levels: &[i32],
    last: usize,
) -> Result<(), Memory>
    requires going { S.over s.old ≡ false }
    requires shape { IsShape cat (length levels.now) }
    requires last { last < length levels.now }
    requires level { is_nonzero (slice_index_or levels.now last (pos 0)) ≡ true }
    ensures writes { OnOk result (Writes S.step (marks_from cat field [] 0 (length levels.now - 1)) (marks_of (last + 1) levels.now) s.old s.new) }
    ensures going { OnOk result (S.over s.new ≡ false) }
    ensures err { OnErr result (S.over s.new ≡ true) }
{
    for place in 0..last {
        let is_significant = is_nonzero(levels[place]);
        write_mark(s, cat, field, place as u8, is_significant, false)?;
    }
    if last + 1 < levels.len() {
        write_mark(s, cat, field, last as u8, true, true)?;
    }
    Ok(())
}
