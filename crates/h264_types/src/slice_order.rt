//! Where the macroblocks of a slice stand. Numbers count the macroblocks of the slice from 0, or its pairs.
ghost use Rattle.std.specs.Prelude.{◌≡◌, ◌+◌, ◌*◌, ◌^◌, ◌<◌, ◌≤◌, IfSome, length};
ghost use Rattle.h264_types.specs.Slice as slice;

use crate::macroblock::Mb;
use crate::slice_shape::SliceShape;

/// The number to the left of `number` in rows of `width`, in the slice whose number 0 has the address `first`: for
/// macroblocks outside MBAFF and for pairs alike (6.4.9, 6.4.10). None where the row or the slice begins.
pub(crate) fn left_number(width: u32, first: u32, number: usize) -> Option<usize>
    requires width { 0 < width }
    requires fits { first + number < 2 ^ 64 }
    ensures value { result ≡ slice.left_number width first number }
    ensures before { IfSome result (λ left. left + 1 ≡ number) }
{
    if (first as usize + number) % width as usize == 0 {
        None
    } else {
        number.checked_sub(1)
    }
}

/// The number above `number` in rows of `width`, for macroblocks outside MBAFF and for pairs alike (6.4.9, 6.4.10). None
/// where the slice has none there.
pub fn above_number(width: u32, number: usize) -> Option<usize>
    ensures value { result ≡ slice.above_number width number }
    ensures before { IfSome result (λ above. above + width ≡ number) }
{
    number.checked_sub(width as usize)
}

/// mb_field_decoding_flag of a macroblock of the slice.
pub(crate) fn is_field_at(mbs: &[Mb], number: usize) -> bool
    requires { number < length mbs.now }
    ensures { result ≡ slice.field_at mbs.now number }
{
    mbs[number].field
}

/// Whether a macroblock of the slice is skipped.
pub(crate) fn is_skipped_at(mbs: &[Mb], number: usize) -> bool
    requires { number < length mbs.now }
    ensures { result ≡ slice.skipped_at mbs.now number }
{
    mbs[number].kind.is_skip()
}

/// mb_field_decoding_flag of a pair of the slice whose macroblocks are both skipped (7.4.4): that of the left pair in the
/// slice, else of the pair above in the slice, else false. `mbs` has at least the macroblocks before the pair.
pub(crate) fn inferred_field(shape: &SliceShape, mbs: &[Mb], pair: usize) -> bool
    requires picture { slice.IsInPicture shape.now (2 * pair) }
    requires before { 2 * pair ≤ length mbs.now }
    ensures { result ≡ slice.inferred_field shape.now mbs.now pair }
{
    if let Some(left) = left_number(shape.width, shape.first / 2, pair) {
        is_field_at(mbs, 2 * left)
    } else if let Some(above) = above_number(shape.width, pair) {
        is_field_at(mbs, 2 * above)
    } else {
        false
    }
}
