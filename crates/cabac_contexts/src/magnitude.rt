// How large the vector differences of neighbouring blocks are (9.3.3.1.1.7).
ghost use Rattle.std.specs.Prelude.{◌≡◌, ◌<◌, ◌≤◌, ◌^◌, List, IfSome};
ghost use Rattle.h264_types.specs.LastRows.{AreRows, IsRecent, StandsAt};
ghost use Rattle.h264_types.specs.declared.macroblock.Mb.{Mb};
ghost use Rattle.h264_types.specs.declared.slice_shape.SliceShape.{SliceShape};
ghost use Rattle.h264_types.specs.Slice.{IsInPicture};
ghost use Rattle.cabac_contexts.specs.Terms.{in_units, magnitude_of, magnitude_at, magnitudes};

use crate::term::uses;
use h264_types::{Mb, Rows, SliceShape};
use mb_neighbours::{At, Spot, above, left};

/// absMvdComp of a component of the part that begins with this 4x4 block.
pub(crate) fn magnitudes(
    shape: &SliceShape,
    done: &Rows<Mb>,
    at: u32,
    field: bool,
    mb: &Mb,
    list: u8,
    block: u8,
    axis: u8,
) -> u64
    requires picture { IsInPicture shape.now at }
    requires list { list < 2 }
    requires block { block < 16 }
    requires axis { axis < 2 }
    ensures { (mbs : List Mb) → StandsAt (λ mb. mb) shape.now done.now mbs at → result ≡ magnitudes shape.now mbs at field mb.now list block axis }
{
    let place = At::Luma4(block);
    let a = left(shape, done, at, field, place);
    let b = above(shape, done, at, field, place);
    of_neighbour(done, at, mb, a, list, axis, field)
        + of_neighbour(done, at, mb, b, list, axis, field)
}

/// absMvdCompN of a neighbour, where it was found.
fn of_neighbour(
    done: &Rows<Mb>,
    at: u32,
    mb: &Mb,
    found: Option<Spot>,
    list: u8,
    axis: u8,
    field: bool,
) -> u64
    requires block { IfSome found (λ spot. spot.block < 16) }
    requires list { list < 2 }
    requires axis { axis < 2 }
    ensures value { (shape : SliceShape) (mbs : List Mb) → AreRows (λ mb. mb) shape done.now mbs → IfSome found (λ spot. IsRecent done.now spot.mb)
        → result ≡ magnitude_at list axis field mbs at mb.now found }
    ensures bound { result ≤ 2 ^ 32 }
{
    let Some(spot) = found else {
        return 0;
    };
    if spot.mb == at {
        return of_block(mb, spot.block, list, axis, field);
    }
    match done.get(spot.mb) {
        Some(neighbour) => of_block(neighbour, spot.block, list, axis, field),
        None => 0,
    }
}

/// absMvdCompN of a block.
fn of_block(mb: &Mb, block: u8, list: u8, axis: u8, field: bool) -> u64
    requires block { block < 16 }
    requires list { list < 2 }
    requires axis { axis < 2 }
    ensures value { result ≡ magnitude_of list axis field mb.now block }
    ensures bound { result ≤ 2 ^ 32 }
{
    if !uses(mb, list, block / 4) {
        return 0;
    }
    let vector = mb.mvd[usize::from(list)][usize::from(block)];
    let magnitude = vector[usize::from(axis)].unsigned_abs();
    in_units(field, mb.field, axis, magnitude)
}

/// A component's magnitude in the units of the current macroblock, whose pair flag is `field`.
fn in_units(field: bool, of_field: bool, axis: u8, magnitude: u32) -> u64
    requires { magnitude ≤ 2 ^ 31 }
    ensures value { result ≡ in_units field of_field axis magnitude }
    ensures bound { result ≤ 2 ^ 32 }
{
    let magnitude = u64::from(magnitude);
    match (field, of_field) {
        (false, true) if axis == 1 => magnitude * 2,
        (true, false) if axis == 1 => magnitude / 2,
        _ => magnitude,
    }
}
