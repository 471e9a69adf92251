ghost use Rattle.std.specs.Prelude.{◌≡◌, ◌⊎◌, ◌+◌, ◌<◌, ◌≤◌, slice_index_or};
ghost use Rattle.cabac_residual.specs.Contexts.{flag_context, map_offsets, place_of, significance_context, last_context};

use code_tables::{last_map, sig_map};

/// The offsets of ctxBlockCat 0 to 4 for the flags of the significance map (Table 9-40).
static MAP_OFFSETS: [u16; 5] = [0, 15, 29, 44, 47];

/// The first context of coeff_abs_level_minus1 of ctxBlockCat 0 to 5 (Tables 9-34 and 9-40).
pub static LEVEL_BASES: [u16; 6] = [227, 237, 247, 257, 266, 426];

/// The context of coded_block_flag.
#[inline(always)]
pub fn flag_context(cat: u8, inc: u8) -> u16
    requires cat { cat < 5 }
    requires inc { inc ≤ 3 }
    ensures context { result ≡ flag_context cat inc }
    ensures small { result < 460 }
{
    85 + 4 * u16::from(cat) + u16::from(inc)
}

/// The context of a flag of the significance map at a place of a block of ctxBlockCat 0 to 4.
#[inline(always)]
fn map_context(base: u16, cat: u8, place: u8) -> u16
    requires base { base ≤ 338 }
    requires cat { cat < 5 }
    requires place { place < 15 }
    ensures context { result ≡ base + slice_index_or map_offsets cat 0 + place_of cat place }
    ensures small { result < 460 }
{
    let place = if cat == 3 { place.min(2) } else { place };
    base + MAP_OFFSETS[usize::from(cat)] + u16::from(place)
}

/// The context of significant_coeff_flag.
#[inline(always)]
pub fn significance_context(cat: u8, field: bool, place: u8) -> u16
    requires cat { cat < 6 }
    requires place { place < 63 }
    requires few { (cat ≡ 5) ⊎ (place < 15) }
    ensures context { result ≡ significance_context cat field place }
    ensures small { result < 460 }
{
    if cat == 5 {
        let base = if field { 436 } else { 402 };
        return base + u16::from(sig_map(field, place));
    }
    map_context(if field { 277 } else { 105 }, cat, place)
}

/// The context of last_significant_coeff_flag.
#[inline(always)]
pub fn last_context(cat: u8, field: bool, place: u8) -> u16
    requires cat { cat < 6 }
    requires place { place < 63 }
    requires few { (cat ≡ 5) ⊎ (place < 15) }
    ensures context { result ≡ last_context cat field place }
    ensures small { result < 460 }
{
    if cat == 5 {
        let base = if field { 451 } else { 417 };
        return base + u16::from(last_map(place));
    }
    map_context(if field { 338 } else { 166 }, cat, place)
}
