//! What tries of macroblocks share.
ghost use Rattle.std.specs.Prelude.{◌+◌, ◌*◌, ◌≤◌, length};
ghost use Rattle.h264_types.specs.SliceShape.{IsSliceShape};

use h264_types::{Mb, Rows, SliceShape};
use std::alloc::{AllocError as Memory, Global};

/// The last two rows of a slice where these are the macroblocks that are done.
pub fn rows_of(alloc: Global, shape: &SliceShape, mbs: &[Mb]) -> Result<Rows<Mb>, Memory>
    requires shape { IsSliceShape shape.now }
    requires picture { shape.now.first + length mbs.now ≤ shape.now.width * shape.now.height }
{
    let mut rows = Rows::start(alloc, shape)?;
    for mb in mbs {
        rows.push(mb);
    }
    Ok(rows)
}
