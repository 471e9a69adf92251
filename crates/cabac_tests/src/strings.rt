//! The bin strings of 9.3.2 with the first ctxIdx of Table 9-34.
ghost use Rattle.std.specs.Prelude.{◌≡◌, false};

use crate::bins::{Bins, Kind};
use Element::{
    ChromaMode, EndOfSlice, Field, Mode, ModeFlag, PatternChroma, PatternLuma, RefIdx, SkipB,
    SkipP, SubB, SubP, Transform8x8, TypeB, TypeI, TypeP,
};
use Kind::{Context, End};
use binarisation::*;
use std::alloc::AllocError as Memory;
use std::test::Fail;

/// An element whose value is small, with the increments that its bins are given here.
#[derive(Clone, Copy)]
enum Element {
    SkipP,
    SkipB,
    Field,
    Transform8x8,
    ModeFlag,
    PatternLuma,
    EndOfSlice,
    TypeI,
    TypeP,
    TypeB,
    SubP,
    SubB,
    Mode,
    ChromaMode,
    RefIdx,
    PatternChroma,
}

/// Writes an element, or nothing where the value isn't in its range.
fn write(bins: &mut Bins, element: Element, value: u8) -> Result<(), Memory>
    requires { bins.old.is_over ≡ false }
{
    match element {
        SkipP => write_skip_p(bins, 2, value != 0),
        SkipB => write_skip_b(bins, 0, value != 0),
        Field => write_field(bins, 1, value != 0),
        Transform8x8 => write_t8(bins, 2, value != 0),
        ModeFlag => write_mode_flag(bins, value != 0),
        PatternLuma => write_pattern_luma(bins, 3, value != 0),
        EndOfSlice => write_end_of_slice(bins, value != 0),
        TypeI if value <= 25 => write_type_i(bins, 2, value),
        TypeP if value <= 30 && value != 4 => write_type_p(bins, value),
        TypeB if value <= 48 => write_type_b(bins, 1, value),
        SubP if value <= 3 => write_sub_p(bins, value),
        SubB if value <= 12 => write_sub_b(bins, value),
        Mode if value <= 7 => write_mode(bins, value),
        ChromaMode if value <= 3 => write_chroma_mode(bins, 2, value),
        RefIdx if value <= 31 => write_ref_idx(bins, 3, value),
        PatternChroma if value <= 2 => write_pattern_chroma(bins, 3, 1, value),
        _ => Ok(()),
    }
}

fn read(bins: &mut Bins, element: Element) -> Option<u8>
    requires { bins.old.is_over ≡ false }
{
    match element {
        SkipP => read_skip_p(bins, 2).map(u8::from),
        SkipB => read_skip_b(bins, 0).map(u8::from),
        Field => read_field(bins, 1).map(u8::from),
        Transform8x8 => read_t8(bins, 2).map(u8::from),
        ModeFlag => read_mode_flag(bins).map(u8::from),
        PatternLuma => read_pattern_luma(bins, 3).map(u8::from),
        EndOfSlice => read_end_of_slice(bins).map(u8::from),
        TypeI => read_type_i(bins, 2),
        TypeP => read_type_p(bins),
        TypeB => read_type_b(bins, 1),
        SubP => read_sub_p(bins),
        SubB => read_sub_b(bins),
        Mode => read_mode(bins),
        ChromaMode => read_chroma_mode(bins, 2),
        RefIdx => read_ref_idx(bins, 3),
        PatternChroma => read_pattern_chroma(bins, 3, 1),
    }
}

/// An element, the context of its first bin, its value, and its bins.
static STRINGS: [(Element, Kind, u8, &str); 50] = [
    (SkipP, Context(13), 1, "1"),
    (SkipB, Context(24), 0, "0"),
    (Field, Context(71), 1, "1"),
    (Transform8x8, Context(401), 1, "1"),
    (ModeFlag, Context(68), 0, "0"),
    (PatternLuma, Context(76), 1, "1"),
    (EndOfSlice, End, 1, "1"),
    (EndOfSlice, End, 0, "0"),
    // Table 9-36
    (TypeI, Context(5), 0, "0"),
    (TypeI, Context(5), 1, "100000"),
    (TypeI, Context(5), 4, "100011"),
    (TypeI, Context(5), 5, "1001000"),
    (TypeI, Context(5), 12, "1001111"),
    (TypeI, Context(5), 13, "101000"),
    (TypeI, Context(5), 24, "1011111"),
    (TypeI, Context(5), 25, "11"),
    // Table 9-37
    (TypeP, Context(14), 0, "000"),
    (TypeP, Context(14), 1, "011"),
    (TypeP, Context(14), 2, "010"),
    (TypeP, Context(14), 3, "001"),
    (TypeP, Context(14), 5, "10"),
    (TypeP, Context(14), 30, "111"),
    (TypeB, Context(28), 0, "0"),
    (TypeB, Context(28), 1, "100"),
    (TypeB, Context(28), 2, "101"),
    (TypeB, Context(28), 3, "110000"),
    (TypeB, Context(28), 10, "110111"),
    (TypeB, Context(28), 11, "111110"),
    (TypeB, Context(28), 12, "1110000"),
    (TypeB, Context(28), 21, "1111001"),
    (TypeB, Context(28), 22, "111111"),
    (TypeB, Context(28), 23, "1111010"),
    (TypeB, Context(28), 48, "11110111"),
    // Table 9-38
    (SubP, Context(21), 0, "1"),
    (SubP, Context(21), 1, "00"),
    (SubP, Context(21), 2, "011"),
    (SubP, Context(21), 3, "010"),
    (SubB, Context(36), 0, "0"),
    (SubB, Context(36), 1, "100"),
    (SubB, Context(36), 6, "11011"),
    (SubB, Context(36), 7, "111000"),
    (SubB, Context(36), 11, "11110"),
    (SubB, Context(36), 12, "11111"),
    // the three bits of rem_intra4x4_pred_mode, the lowest one first
    (Mode, Context(69), 6, "011"),
    (ChromaMode, Context(66), 2, "110"),
    (ChromaMode, Context(66), 3, "111"),
    (RefIdx, Context(57), 4, "11110"),
    (PatternChroma, Context(80), 0, "0"),
    (PatternChroma, Context(80), 1, "10"),
    (PatternChroma, Context(80), 2, "11"),
];

/// An element has these bins, of which the first is coded in this way, and it comes back from them.
fn has_string(
    bins: Bins,
    element: Element,
    first: Kind,
    value: u8,
    text: &str,
) -> Result<bool, Memory>
    requires { bins.is_over ≡ false }
{
    let mut bins = bins;
    write(&mut bins, element, value)?;
    let is_string = bins.has_bits(text) && bins.list.first().is_some_and(|bin| bin.0 == first);
    let mut bins = bins.again();
    Ok(is_string && read(&mut bins, element) == Some(value) && bins.is_read())
}

#[test]
fn elements_have_their_strings(rt: HostRuntime) -> Result<(), Fail> {
    for (element, first, value, text) in &STRINGS {
        let holds = has_string(Bins::new(rt.alloc()), *element, *first, *value, text)?;
        assert!(rt; holds);
    }
    Ok(())
}
