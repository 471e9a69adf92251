ghost use Rattle.std.specs.Prelude.{◌≡◌, ◌<◌, Some, slice_get};
ghost use Rattle.code_tables.specs.SignificanceMaps.{last_list, significance_list};

/// The ctxIdxInc of significant_coeff_flag at a place of an 8x8 block of luma, in a frame or a field macroblock.
pub fn sig_map(field: bool, place: u8) -> u8
    requires { place < 63 }
    ensures entry { slice_get (significance_list field) place ≡ Some result }
    ensures in_range { result < 15 }
{
    if field {
        FIELD_MAP[usize::from(place)]
    } else {
        FRAME_MAP[usize::from(place)]
    }
}

/// The ctxIdxInc of last_significant_coeff_flag at a place of an 8x8 block of luma.
pub fn last_map(place: u8) -> u8
    requires { place < 63 }
    ensures entry { slice_get last_list place ≡ Some result }
    ensures in_range { result < 9 }
{
    LAST_MAP[usize::from(place)]
}

/// significant_coeff_flag of frame coded macroblocks (Table 9-43).
static FRAME_MAP: [u8; 63] = [
    0, 1, 2, 3, 4, 5, 5, 4, 4, 3, 3, 4, 4, 4, 5, 5, 4, 4, 4, 4, 3, 3, 6, 7, 7, 7, 8, 9, 10, 9, 8,
    7, 7, 6, 11, 12, 13, 11, 6, 7, 8, 9, 14, 10, 9, 8, 6, 11, 12, 13, 11, 6, 9, 14, 10, 9, 11, 12,
    13, 11, 14, 10, 12,
];

/// significant_coeff_flag of field coded macroblocks (Table 9-43).
static FIELD_MAP: [u8; 63] = [
    0, 1, 1, 2, 2, 3, 3, 4, 5, 6, 7, 7, 7, 8, 4, 5, 6, 9, 10, 10, 8, 11, 12, 11, 9, 9, 10, 10, 8,
    11, 12, 11, 9, 9, 10, 10, 8, 11, 12, 11, 9, 9, 10, 10, 8, 13, 13, 9, 9, 10, 10, 8, 13, 13, 9,
    9, 10, 10, 14, 14, 14, 14, 14,
];

/// last_significant_coeff_flag (Table 9-43).
static LAST_MAP: [u8; 63] = [
    0, 1, 1, 1, 1, 1, 1, 1, 1, 1, 1, 1, 1, 1, 1, 1, 2, 2, 2, 2, 2, 2, 2, 2, 2, 2, 2, 2, 2, 2, 2, 2,
    3, 3, 3, 3, 3, 3, 3, 3, 4, 4, 4, 4, 4, 4, 4, 4, 5, 5, 5, 5, 6, 6, 6, 6, 7, 7, 7, 7, 8, 8, 8,
];
