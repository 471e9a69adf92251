//! What stands around a macroblock of a macroblock-adaptive frame (ITU-T H.264, 6.4.12.2, 9.2.1).
ghost use Rattle.std.specs.Prelude.{◌≡◌, ◌≤◌, ◌<◌, List, length, min, slice_index_or, IfSome};
ghost use Rattle.std.specs.Option.{option_map_or};
ghost use Rattle.h264_types.specs.LastRows.{AreRows, IsRecent};
ghost use Rattle.h264_types.specs.Slice.{IsInPicture};
ghost use Rattle.h264_types.specs.declared.macroblock.Mb.{Mb};
ghost use Rattle.h264_types.specs.declared.slice_shape.SliceShape.{SliceShape};
ghost use Rattle.mb_neighbours.specs.Near.{left_of, above_of};
ghost use Rattle.mb_neighbours.specs.Place.{IsPlace, count_of as places_of};
ghost use Rattle.cavlc_mb_residual.specs.Counts as count;

use crate::counts::{Around, Counts, Sides};
use h264_types::{Rows, SliceShape};
use mb_neighbours::{At, Spot, above, left};

/// What has blocks of its own that are counted.
#[derive(Clone, Copy)]
pub enum Component {
    Luma,
    Cb,
    Cr,
}

impl Component {
    /// The block of the first column at a quarter of its height.
    fn column(self, k: u8) -> At
        requires { k < 4 }
        ensures value { result ≡ count.column_of self k }
        ensures place { IsPlace result }
        ensures blocks { places_of result ≡ count.blocks_of self }
    {
        match self {
            Component::Luma => At::Luma4(8 * (k / 2) + 2 * (k % 2)),
            Component::Cb | Component::Cr => At::Chroma4(2 * (k % 2)),
        }
    }

    /// The block of the first row at a quarter of its width.
    fn row(self, k: u8) -> At
        requires { k < 4 }
        ensures value { result ≡ count.row_of self k }
        ensures place { IsPlace result }
        ensures blocks { places_of result ≡ count.blocks_of self }
    {
        match self {
            Component::Luma => At::Luma4(4 * (k / 2) + k % 2),
            Component::Cb | Component::Cr => At::Chroma4(k % 2),
        }
    }
}

/// What a block counts of a macroblock that is kept, which is 16 at most.
fn count_in(counts: &Counts, component: Component, block: u8) -> u8
    ensures value { result ≡ min (slice_index_or (count.counts_in component counts.now) block 0) 16 }
    ensures small { result ≤ 16 }
{
    match component {
        Component::Luma => count_of_block(&counts.luma, block),
        Component::Cb => count_of_block(&counts.cb, block),
        Component::Cr => count_of_block(&counts.cr, block),
    }
}

fn count_of_block(counts: &[u8], block: u8) -> u8
    ensures value { result ≡ min (slice_index_or counts.now block 0) 16 }
    ensures small { result ≤ 16 }
{
    counts.get(usize::from(block)).copied().unwrap_or(0).min(16)
}

/// What a block counts that was found, and 0 where there is none.
fn count_at(rows: &Rows<Counts>, component: Component, found: Option<Spot>) -> u8
    requires block { IfSome found (λ spot. spot.block < count.blocks_of component) }
    ensures value { (shape : SliceShape) (mbs : List Mb) → AreRows count.counts_of shape rows.now mbs → IfSome found (λ spot. IsRecent rows.now spot.mb) → result ≡ option_map_or (count.count_at (count.count_of component) mbs) found 0 }
    ensures small { result ≤ 16 }
{
    let Some(spot) = found else {
        return 0;
    };
    match rows.get(spot.mb) {
        Some(counts) => count_in(counts, component, spot.block),
        None => 0,
    }
}

/// What the block counts to the left of the first column at a quarter of its height.
fn count_left(
    shape: &SliceShape,
    rows: &Rows<Counts>,
    field: bool,
    component: Component,
    k: u8,
) -> u8
    requires k { k < 4 }
    requires picture { IsInPicture shape.now rows.now.count }
    ensures value { (mbs : List Mb) → AreRows count.counts_of shape.now rows.now mbs → result ≡ option_map_or (count.count_at (count.count_of component) mbs) (left_of shape.now mbs (length mbs) field (count.column_of component k)) 0 }
    ensures small { result ≤ 16 }
{
    let found = left(shape, rows, rows.count(), field, component.column(k));
    count_at(rows, component, found)
}

/// What the block counts above the first row at a quarter of its width.
fn count_above(
    shape: &SliceShape,
    rows: &Rows<Counts>,
    field: bool,
    component: Component,
    k: u8,
) -> u8
    requires k { k < 4 }
    requires picture { IsInPicture shape.now rows.now.count }
    ensures value { (mbs : List Mb) → AreRows count.counts_of shape.now rows.now mbs → result ≡ option_map_or (count.count_at (count.count_of component) mbs) (above_of shape.now mbs (length mbs) field (count.row_of component k)) 0 }
    ensures small { result ≤ 16 }
{
    let found = above(shape, rows, rows.count(), field, component.row(k));
    count_at(rows, component, found)
}

/// What the blocks count to the left of the first column, where there are such.
fn left_side(
    shape: &SliceShape,
    rows: &Rows<Counts>,
    field: bool,
    component: Component,
) -> Option<[u8; 4]>
    requires picture { IsInPicture shape.now rows.now.count }
    ensures value { (mbs : List Mb) → AreRows count.counts_of shape.now rows.now mbs → result ≡ count.side (count.count_at (count.count_of component) mbs) (left_of shape.now mbs (length mbs) field) (count.column_of component) }
    ensures small { count.IsSide result }
{
    left(shape, rows, rows.count(), field, At::Whole)?;
    Some([
        count_left(shape, rows, field, component, 0),
        count_left(shape, rows, field, component, 1),
        count_left(shape, rows, field, component, 2),
        count_left(shape, rows, field, component, 3),
    ])
}

/// What the blocks count above the first row, where there are such.
fn side_above(
    shape: &SliceShape,
    rows: &Rows<Counts>,
    field: bool,
    component: Component,
) -> Option<[u8; 4]>
    requires picture { IsInPicture shape.now rows.now.count }
    ensures value { (mbs : List Mb) → AreRows count.counts_of shape.now rows.now mbs → result ≡ count.side (count.count_at (count.count_of component) mbs) (above_of shape.now mbs (length mbs) field) (count.row_of component) }
    ensures small { count.IsSide result }
{
    above(shape, rows, rows.count(), field, At::Whole)?;
    Some([
        count_above(shape, rows, field, component, 0),
        count_above(shape, rows, field, component, 1),
        count_above(shape, rows, field, component, 2),
        count_above(shape, rows, field, component, 3),
    ])
}

/// What the blocks of a component count to the left of the next macroblock and above it.
fn sides(shape: &SliceShape, rows: &Rows<Counts>, field: bool, component: Component) -> Sides
    requires picture { IsInPicture shape.now rows.now.count }
    ensures value { (mbs : List Mb) → AreRows count.counts_of shape.now rows.now mbs → result ≡ count.sides_in (count.count_of component) shape.now mbs (length mbs) field (count.column_of component) (count.row_of component) }
    ensures small { count.AreSides result }
{
    Sides {
        left: left_side(shape, rows, field, component),
        above: side_above(shape, rows, field, component),
    }
}

/// What stands around the next macroblock, where `field` is the flag of its pair.
pub fn around_in_pairs(shape: &SliceShape, rows: &Rows<Counts>, field: bool) -> Around
    requires picture { IsInPicture shape.now rows.now.count }
    ensures value { (mbs : List Mb) → AreRows count.counts_of shape.now rows.now mbs → result ≡ count.around_of shape.now mbs (length mbs) field }
    ensures small { count.IsAround result }
{
    Around {
        luma: sides(shape, rows, field, Component::Luma),
        cb: sides(shape, rows, field, Component::Cb),
        cr: sides(shape, rows, field, Component::Cr),
    }
}
