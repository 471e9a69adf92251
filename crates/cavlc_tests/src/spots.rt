//! What the tries of neighbours share.
ghost use Rattle.std.specs.Prelude.{◌≡◌, ◌+◌, ◌*◌, ◌<◌, ◌≤◌, ◌↔◌, IsTrue, IfOk, length};
ghost use Rattle.h264_types.specs.SliceShape.{IsSliceShape};
ghost use Rattle.mb_neighbours.specs.Place.{IsPlace};

use h264_types::{Mb, MbKind, Rows, SliceKind, SliceShape};
use mb_neighbours::{At, Spot};
use std::alloc::{AllocError as Memory, Global};

pub fn shape(width: u32, first: u32, mbaff: bool) -> SliceShape
    ensures width { result.width ≡ width }
    ensures height { result.height ≡ 8 }
    ensures first { result.first ≡ first }
    ensures mbaff { result.mbaff ≡ mbaff }
{
    SliceShape {
        kind: SliceKind::P,
        width,
        height: 8,
        first,
        mbaff,
        field_pic: false,
        refs: [1, 0],
        t8_mode: false,
        direct8: true,
        profile: 77,
        qp: 26,
        column: 1,
    }
}

pub fn skipped(field: bool) -> Mb {
    let mut mb = Mb::without_elements(MbKind::Skip);
    mb.field = field;
    mb
}

/// The last two rows of the slice that begins with these macroblocks.
pub fn rows_of(alloc: Global, shape: &SliceShape, mbs: &[Mb]) -> Result<Rows<Mb>, Memory>
    requires shape { IsSliceShape shape.now }
    requires picture { shape.now.first + length mbs.now ≤ shape.now.width * shape.now.height }
    ensures { IfOk result (λ rows. rows.mbaff ≡ shape.now.mbaff) }
{
    let mut rows = Rows::start(alloc, shape)?;
    for mb in mbs {
        rows.push(mb);
    }
    Ok(rows)
}

/// What was found is a block of this macroblock, or nothing where there is none.
pub fn is_spot(found: Option<Spot>, mb: Option<u32>, block: u8) -> bool {
    match found {
        Some(spot) => mb == Some(spot.mb) && block == spot.block,
        None => mb.is_none(),
    }
}

pub fn is_place(place: At) -> bool
    ensures { IsTrue result ↔ IsPlace place }
{
    match place {
        At::Whole => true,
        At::Luma4(block) => block < 16,
        At::Luma8(block) | At::Chroma4(block) => block < 4,
    }
}
