ghost use Rattle.std.specs.Prelude.{◌≡◌, ◌<◌, ◌≤◌, ◌-◌, ◌+◌, length, drop, reverse, replicate, pos, slice_index_or, IfSome, IfNone, option_map, unsigned_abs, false, true, OnOk, OnSome, OnErr};
ghost use Rattle.std.specs.List.{AllByRecursion};
ghost use Rattle.binarisation.specs.BinString.{Reads, Writes};
ghost use Rattle.cabac_residual.specs.Block.{is_nonzero, no_levels, levels_before, coded, block, marks_below, behind_last, AreBelow, marks_of, AreLevels};
ghost use Rattle.cabac_residual.specs.Contexts.{IsShape};

use crate::contexts::flag_context;
use crate::level::{Counts, after, read_level, write_level_at};
use crate::marks::{read_places, write_marks};
use cabac_engine::{BinSink, BinSource};
use h264_types::Levels;
use std::alloc::AllocError as Memory;

const NO_LEVELS: Counts = Counts { ones: 0, above: 0 };

/// Makes all levels 0.
#[inline(always)]
fn clear(levels: &mut [i32])
    ensures { levels.new ≡ replicate (length levels.old) (pos 0) }
{
    levels.fill(0);
}

/// Reads the levels of the significant places, from the last one down, where all levels are 0.
#[inline(always)]
fn read_at_places<S: BinSource>(s: &mut S, cat: u8, places: &[u8], levels: &mut [i32]) -> Option<()>
    requires going { S.over s.old ≡ false }
    requires cat { cat < 6 }
    requires below { AreBelow (length levels.old) (reverse places.now) }
    requires few { length places.now ≤ 64 }
    requires clear { levels.old ≡ replicate (length levels.old) (pos 0) }
    ensures reads { Reads S.step (levels_before cat no_levels (drop (behind_last (reverse places.now)) levels.old) (marks_below (behind_last (reverse places.now)) (reverse places.now))) (option_map (λ _. levels.new) result) s.old s.new }
    ensures going { OnSome result (S.over s.new ≡ false) }
{
    let mut counts = NO_LEVELS;
    let mut at = places.len();
    while at > 0 {
        at -= 1;
        let level = read_level(s, cat, counts)?;
        levels[usize::from(places[at])] = level;
        counts = after(counts, level);
    }
    Some(())
}

/// Reads the levels of a block in which one is other than 0.
#[inline(always)]
fn read_coded<S: BinSource>(s: &mut S, cat: u8, field: bool, levels: &mut [i32]) -> Option<()>
    requires going { S.over s.old ≡ false }
    requires shape { IsShape cat (length levels.old) }
    ensures reads { Reads S.step (coded cat field (length levels.old)) (option_map (λ _. levels.new) result) s.old s.new }
    ensures going { OnSome result (S.over s.new ≡ false) }
{
    let places = read_places(s, cat, field, levels.len() as u8)?;
    clear(levels);
    read_at_places(s, cat, places.as_slice(), levels)
}

/// Reads a residual block of as many levels as the list that is lent has, into that list. `cat` is ctxBlockCat, and
/// `flag_inc` the increment of coded_block_flag, which category 5 doesn't have. None where the source ran out, or a level is
/// above 65535 in magnitude; what the list then holds isn't said.
#[inline(always)]
pub fn read_levels<S: BinSource>(
    s: &mut S,
    cat: u8,
    field: bool,
    flag_inc: u8,
    levels: &mut [i32],
) -> Option<()>
    requires going { S.over s.old ≡ false }
    requires shape { IsShape cat (length levels.old) }
    requires inc { flag_inc ≤ 3 }
    ensures reads { Reads S.step (block cat field flag_inc (length levels.old)) (option_map (λ _. levels.new) result) s.old s.new }
    ensures going { OnSome result (S.over s.new ≡ false) }
{
    if cat == 5 {
        return read_coded(s, cat, field, levels);
    }
    if s.bin(flag_context(cat, flag_inc))? {
        return read_coded(s, cat, field, levels);
    }
    clear(levels);
    Some(())
}

/// Reads a residual block of `max` levels, as `read_levels` does.
pub fn read_block<S: BinSource>(
    s: &mut S,
    cat: u8,
    max: u8,
    field: bool,
    flag_inc: u8,
) -> Option<Levels>
    requires going { S.over s.old ≡ false }
    requires shape { IsShape cat max }
    requires inc { flag_inc ≤ 3 }
    ensures reads { Reads S.step (block cat field flag_inc max) (option_map (λ levels. levels.items) result) s.old s.new }
    ensures going { OnSome result (S.over s.new ≡ false) }
{
    let mut block = [0i32; 64];
    let levels = &mut block[..usize::from(max)];
    read_levels(s, cat, field, flag_inc, levels)?;
    Some(levels_of(levels))
}

/// The levels of a list.
fn levels_of(list: &[i32]) -> Levels
    requires { length list.now ≤ 64 }
    ensures { result.items ≡ list.now }
{
    let mut levels = Levels::new();
    for level in list {
        levels.push(*level);
    }
    levels
}

/// The last place whose level is other than 0.
#[inline(always)]
fn last_significant(levels: &[i32]) -> Option<usize>
    requires { length levels.now ≤ 64 }
    ensures place { IfSome result (λ last. last < length levels.now) }
    ensures level { IfSome result (λ last. is_nonzero (slice_index_or levels.now last (pos 0)) ≡ true) }
    ensures behind { IfSome result (λ last. drop (last + 1) levels.now ≡ replicate (length levels.now - (last + 1)) (pos 0)) }
    ensures none { IfNone result (levels.now ≡ replicate (length levels.now) (pos 0)) }
{
    let mut at = levels.len();
    while at > 0 {
        at -= 1;
        if levels[at].unsigned_abs() != 0 {
            return Some(at);
        }
    }
    None
}

/// Writes the levels other than 0 of the first places, from the last one down.
#[inline(always)]
fn write_marked<S: BinSink>(s: &mut S, cat: u8, levels: &[i32], count: usize) -> Result<(), Memory>
    requires going { S.over s.old ≡ false }
    requires cat { cat < 6 }
    requires count { count ≤ length levels.now }
    requires most { length levels.now ≤ 64 }
    requires small { AreLevels levels.now }
    ensures writes { OnOk result (Writes S.step (levels_before cat no_levels (drop count levels.now) (marks_of count levels.now)) levels.now s.old s.new) }
    ensures going { OnOk result (S.over s.new ≡ false) }
    ensures err { OnErr result (S.over s.new ≡ true) }
{
    let mut counts = NO_LEVELS;
    let mut at = count;
    while at > 0 {
        at -= 1;
        let level = levels[at];
        write_level_at(s, cat, counts, level)?;
        counts = after(counts, level);
    }
    Ok(())
}

/// Writes the levels of a block, of which the last one other than 0 stands at this place.
#[inline(always)]
fn write_coded<S: BinSink>(
    s: &mut S,
    cat: u8,
    field: bool,
    levels: &[i32],
    last: usize,
) -> Result<(), Memory>
    requires going { S.over s.old ≡ false }
    requires shape { IsShape cat (length levels.now) }
    requires last { last < length levels.now }
    requires level { is_nonzero (slice_index_or levels.now last (pos 0)) ≡ true }
    requires behind { drop (last + 1) levels.now ≡ replicate (length levels.now - (last + 1)) (pos 0) }
    requires small { AreLevels levels.now }
    ensures writes { OnOk result (Writes S.step (coded cat field (length levels.now)) levels.now s.old s.new) }
    ensures going { OnOk result (S.over s.new ≡ false) }
    ensures err { OnErr result (S.over s.new ≡ true) }
{
    write_marks(s, cat, field, levels, last)?;
    write_marked(s, cat, levels, last + 1)
}

/// Writes a residual block of these levels, as `read_levels` reads it.
#[inline(always)]
pub fn write_levels<S: BinSink>(
    s: &mut S,
    cat: u8,
    field: bool,
    flag_inc: u8,
    levels: &[i32],
) -> Result<(), Memory>
    requires going { S.over s.old ≡ false }
    requires shape { IsShape cat (length levels.now) }
    requires inc { flag_inc ≤ 3 }
    requires small { AreLevels levels.now }
    requires some { cat ≡ 5 → levels.now ≡ replicate (length levels.now) (pos 0) → ⊥ }
    ensures writes { OnOk result (Writes S.step (block cat field flag_inc (length levels.now)) levels.now s.old s.new) }
    ensures going { OnOk result (S.over s.new ≡ false) }
    ensures err { OnErr result (S.over s.new ≡ true) }
{
    let Some(last) = last_significant(levels) else {
        return s.bin(flag_context(cat, flag_inc), false);
    };
    if cat == 5 {
        return write_coded(s, cat, field, levels, last);
    }
    s.bin(flag_context(cat, flag_inc), true)?;
    write_coded(s, cat, field, levels, last)
}

/// Writes a residual block, as `write_levels` does.
pub fn write_block<S: BinSink>(
    s: &mut S,
    cat: u8,
    levels: &Levels,
    field: bool,
    flag_inc: u8,
) -> Result<(), Memory>
    requires going { S.over s.old ≡ false }
    requires shape { IsShape cat (length levels.now.items) }
    requires inc { flag_inc ≤ 3 }
    requires small { AreLevels levels.now.items }
    requires some { cat ≡ 5 → levels.now.items ≡ replicate (length levels.now.items) (pos 0) → ⊥ }
    ensures writes { OnOk result (Writes S.step (block cat field flag_inc (length levels.now.items)) levels.now.items s.old s.new) }
    ensures going { OnOk result (S.over s.new ≡ false) }
    ensures err { OnErr result (S.over s.new ≡ true) }
{
    write_levels(s, cat, field, flag_inc, levels.as_slice())
}
