//! The lengths of a macroblock's lists, which its arrays have.
ghost use Rattle.std.specs.Prelude.{◌≡◌, length, All};
ghost use Rattle.h264_types.specs.Sizes.{HasSizes};

use crate::macroblock::Mb;

/// Each list of a list of lists is as long as the arrays of its type.
fn have_sizes<T: Copy, const N: usize, const M: usize>(lists: &[[T; N]; M])
    ensures count { length lists.now ≡ M }
    ensures each { All (λ list. length list ≡ N) lists.now }
{
    for list in lists {
        has_size(list);
    }
}

/// A list is as long as the array of its type.
fn has_size<T: Copy, const N: usize>(list: &[T; N])
    ensures { length list.now ≡ N }
{}

/// The lists of a macroblock are as long as its arrays. It does nothing.
pub fn has_sizes(mb: &Mb)
    ensures { HasSizes mb.now }
{
    have_sizes(&mb.refs);
    have_sizes(&mb.mvd[0]);
    have_sizes(&mb.mvd[1]);
    have_sizes(&mb.luma);
    have_sizes(&mb.chroma_dc);
    have_sizes(&mb.chroma_ac[0]);
    have_sizes(&mb.chroma_ac[1]);
}
