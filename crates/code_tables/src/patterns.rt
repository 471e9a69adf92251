ghost use Rattle.std.specs.Prelude.{◌≡◌, ◌≢◌, ℕ, IfSome, IfNone, Some};
ghost use Rattle.code_tables.specs.CodedBlockPattern.{pattern_at, pattern_list};

use h264_types::Pattern;

/// The patterns in the order of their codeNum: of I_NxN, or of inter macroblocks.
fn patterns(intra: bool) -> &'static [u8]
    ensures { result.now ≡ pattern_list intra }
{
    if intra {
        &INTRA_PATTERNS
    } else {
        &INTER_PATTERNS
    }
}

/// The pattern with this codeNum, of I_NxN or of inter macroblocks. None exactly where there is none.
pub fn pattern_of(intra: bool, place: u8) -> Option<Pattern>
    ensures { result ≡ pattern_at intra place }
{
    let number = *patterns(intra).get(usize::from(place))?;
    Some(Pattern {
        luma: number % 16,
        chroma: number / 16,
    })
}

/// The codeNum of a pattern, of I_NxN or of inter macroblocks. None exactly where it has none.
pub fn code_of_pattern(intra: bool, pattern: Pattern) -> Option<u8>
    ensures found { IfSome result (λ place. pattern_at intra place ≡ Some pattern) }
    ensures none { IfNone result ((place : ℕ) → pattern_at intra place ≢ Some pattern) }
{
    if pattern.luma > 15 || pattern.chroma > 2 {
        return None;
    }
    let number = usize::from(16 * pattern.chroma + pattern.luma);
    if intra {
        Some(INTRA_CODES[number])
    } else {
        Some(INTER_CODES[number])
    }
}

/// The numbers of the patterns of I_NxN in the order of their codeNum (Table 9-4).
static INTRA_PATTERNS: [u8; 48] = [
    47, 31, 15, 0, 23, 27, 29, 30, 7, 11, 13, 14, 39, 43, 45, 46, 16, 3, 5, 10, 12, 19, 21, 26, 28,
    35, 37, 42, 44, 1, 2, 4, 8, 17, 18, 20, 24, 6, 9, 22, 25, 32, 33, 34, 36, 40, 38, 41,
];

/// The numbers of the patterns of inter macroblocks in the order of their codeNum (Table 9-4).
static INTER_PATTERNS: [u8; 48] = [
    0, 16, 1, 2, 4, 8, 32, 3, 5, 10, 12, 15, 47, 7, 11, 13, 14, 6, 9, 31, 35, 37, 42, 44, 33, 34,
    36, 40, 39, 43, 45, 46, 17, 18, 20, 24, 19, 21, 26, 28, 23, 27, 29, 30, 22, 25, 38, 41,
];

/// The codeNum of each number of a pattern of I_NxN.
pub static INTRA_CODES: [u8; 48] = [
    3, 29, 30, 17, 31, 18, 37, 8, 32, 38, 19, 9, 20, 10, 11, 2, 16, 33, 34, 21, 35, 22, 39, 4, 36,
    40, 23, 5, 24, 6, 7, 1, 41, 42, 43, 25, 44, 26, 46, 12, 45, 47, 27, 13, 28, 14, 15, 0,
];

/// The codeNum of each number of a pattern of inter macroblocks.
pub static INTER_CODES: [u8; 48] = [
    0, 2, 3, 7, 4, 8, 17, 13, 5, 18, 9, 14, 10, 15, 16, 11, 1, 32, 33, 36, 34, 37, 44, 40, 35, 45,
    38, 41, 39, 42, 43, 19, 6, 24, 25, 20, 26, 21, 46, 28, 27, 47, 22, 29, 23, 30, 31, 12,
];
