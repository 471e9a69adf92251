//! The last two rows of a slice's macroblocks, of which all that stands to the left of or above a macroblock is found.
ghost use Rattle.h264_types.specs.declared.macroblock.Mb.{Mb};

use crate::macroblock::Mb;
use crate::slice_shape::SliceShape;
use circular_buffer::HeapCircularBuffer;
use std::alloc::{AllocError as Memory, Global};
use std::marker::Model;
use std::slice;

/// What is kept of a macroblock.
pub trait OfMb: Copy {
    ghost use Rattle.std.specs.Prelude.{◌≡◌, [], ◌∷◌, ◌++◌};
    ghost use Rattle.circular_buffer.specs.Buffer.{buffer, keep_last};
    ghost use Rattle.h264_types.specs.Valid.{IsCoded};

    ghost of: { Mb → Self };

    /// What holds of all that is kept of a macroblock whose lists are as long as its arrays.
    ghost Is: { Self → Type 0 };

    /// What is kept of this macroblock.
    fn of(mb: &Mb) -> Self
        ensures value { result ≡ of mb.now }
        ensures is { Is result };

    /// Appends what is kept of this macroblock. Where there is no room for it, the first one goes.
    fn keep(mb: &Mb, kept: &mut HeapCircularBuffer<Self>)
        ensures kept { kept.new ≡ buffer (keep_last kept.old.capacity (kept.old.items ++ of mb.now ∷ [])) kept.old.capacity }
        ensures is { Is (of mb.now) };

    /// The same of a macroblock whose levels stand where its pattern sends them, which may need less of it.
    fn keep_coded(mb: &Mb, kept: &mut HeapCircularBuffer<Self>)
        requires { IsCoded mb.now }
        ensures kept { kept.new ≡ buffer (keep_last kept.old.capacity (kept.old.items ++ of mb.now ∷ [])) kept.old.capacity }
        ensures is { Is (of mb.now) };
}

/// The macroblock itself.
impl OfMb for Mb {
    ghost of = { λ mb. mb };

    ghost Is = { λ _. Unit {0} };

    fn of(mb: &Mb) -> Mb {
        *mb
    }

    fn keep(mb: &Mb, kept: &mut HeapCircularBuffer<Mb>) {
        kept.extend_from_slice(slice::from_ref(mb));
    }

    fn keep_coded(mb: &Mb, kept: &mut HeapCircularBuffer<Mb>) {
        Mb::keep(mb, kept);
    }
}

/// What is kept of the last two rows of a slice's macroblocks, in MBAFF of the last two rows of pairs. Numbers count the
/// macroblocks of the slice from 0.
#[derive(Drop)]
pub struct Rows<K: OfMb> {
    width: u32,
    height: u32,
    first: u32,
    mbaff: bool,
    count: u32,
    /// The column of the next macroblock, in MBAFF of the pair that it belongs to.
    column: u32,
    kept: HeapCircularBuffer<K>,
}

impl<K: OfMb> Model for Rows<K> {
    ghost use Rattle.std.specs.Prelude.{length, All};
    ghost use Rattle.h264_types.specs.LastRows.{LastRows, AreCounts};

    ghost Value = { LastRows K };

    ghost view = { λ r. record { width = r.width; height = r.height; first = r.first; mbaff = r.mbaff; count = r.count; last = r.kept.items } };

    ghost invariant = { λ r. AreCounts r.width r.height r.first r.count r.column r.kept.capacity (length r.kept.items) r.mbaff × All K.Is r.kept.items };
}

impl<K: OfMb> Rows<K> {
    ghost use Rattle.std.specs.Prelude.{◌≡◌, ◌↔◌, ◌+◌, ◌*◌, ◌<◌, ◌≤◌, ◌%◌, false, List, [], ◌∷◌, ◌++◌, length, slice_get, option_copied, IfOk, IfSome, IsSome};
    ghost use Rattle.std.specs.Option.{option_map};
    ghost use Rattle.circular_buffer.specs.Buffer.{keep_last};
    ghost use Rattle.h264_types.specs.declared.slice_shape.SliceShape.{SliceShape};
    ghost use Rattle.h264_types.specs.LastRows.{AreRows, IsHeld, IsNear, IsRecent, kept_at, two_rows, unit_of};
    ghost use Rattle.h264_types.specs.Slice as slice;
    ghost use Rattle.h264_types.specs.SliceShape.{IsSliceShape};
    ghost use Rattle.h264_types.specs.Valid.{IsCoded};

    /// Nothing is kept yet, and there is memory for all that ever is.
    pub fn start(alloc: Global, shape: &SliceShape) -> Result<Self, Memory>
        requires { IsSliceShape shape.now }
        ensures { IfOk result (λ rows. AreRows K.of shape.now rows []) }
    {
        let pair = if shape.mbaff { 2 } else { 1 };
        let two_rows = 2 * pair * shape.width;
        let kept = HeapCircularBuffer::with_capacity(alloc, two_rows as usize)?;
        Ok(Rows {
            width: shape.width,
            height: shape.height,
            first: shape.first,
            mbaff: shape.mbaff,
            count: 0,
            column: shape.first / pair % shape.width,
            kept,
        })
    }

    /// Keeps the next macroblock of the picture.
    pub fn push(&mut self, mb: &Mb)
        requires { self.old.first + self.old.count < self.old.width * self.old.height }
        ensures rows { (shape : SliceShape) (mbs : List Mb) → AreRows K.of shape self.old mbs → AreRows K.of shape self.new (mbs ++ mb.now ∷ []) }
        ensures value { self.new ≡ record self.old { count = self.old.count + 1; last = keep_last (two_rows self.old.width self.old.mbaff) (self.old.last ++ K.of mb.now ∷ []) } }
    {
        let column = self.next_column();
        K::keep(mb, &mut self.kept);
        self.count += 1;
        self.column = column;
    }

    /// Keeps the next macroblock of the picture, whose levels stand where its pattern sends them.
    pub fn push_coded(&mut self, mb: &Mb)
        requires room { self.old.first + self.old.count < self.old.width * self.old.height }
        requires coded { IsCoded mb.now }
        ensures rows { (shape : SliceShape) (mbs : List Mb) → AreRows K.of shape self.old mbs → AreRows K.of shape self.new (mbs ++ mb.now ∷ []) }
        ensures value { self.new ≡ record self.old { count = self.old.count + 1; last = keep_last (two_rows self.old.width self.old.mbaff) (self.old.last ++ K.of mb.now ∷ []) } }
    {
        let column = self.next_column();
        K::keep_coded(mb, &mut self.kept);
        self.count += 1;
        self.column = column;
    }

    /// The column of the macroblock behind the next one, in MBAFF of the pair that it belongs to.
    fn next_column(&self) -> u32
        ensures { result ≡ (unit_of self.now.mbaff self.now.first + unit_of self.now.mbaff (self.now.count + 1)) % self.now.width }
    {
        if self.mbaff && self.count % 2 == 0 {
            self.column
        } else {
            column_behind(self.column, self.width)
        }
    }

    /// How many macroblocks were kept so far.
    pub fn count(&self) -> u32
        ensures { result ≡ self.now.count }
    {
        self.count
    }

    /// What is kept of a macroblock, or None exactly where it isn't of the last two rows.
    pub fn get(&self, number: u32) -> Option<&K>
        ensures held { IsSome result ↔ IsHeld self.now number }
        ensures value { (shape : SliceShape) (mbs : List Mb) → AreRows K.of shape self.now mbs → IsRecent self.now number → option_copied result ≡ option_map K.of (slice_get mbs number) }
    {
        let before = self.count as usize - self.kept.len();
        self.kept.get((number as usize).checked_sub(before)?)
    }

    /// The number to the left of that of the next macroblock or the last one, in MBAFF of the pair of one of them (6.4.9,
    /// 6.4.10). None where the row or the slice begins. Where `number` is none of these the answer isn't said.
    pub fn left_number(&self, number: u32) -> Option<u32>
        ensures value { IsNear self.now number → result ≡ slice.left_number self.now.width (unit_of self.now.mbaff self.now.first) number }
        ensures before { IfSome result (λ left. left + 1 ≡ number) }
    {
        if self.column_of(number) == 0 {
            None
        } else {
            number.checked_sub(1)
        }
    }

    /// The column of the next macroblock or the last one, in MBAFF of the pair of one of them.
    fn column_of(&self, number: u32) -> u32
        ensures value { IsNear self.now number → result ≡ (unit_of self.now.mbaff self.now.first + number) % self.now.width }
        ensures wide { 0 < self.now.width }
    {
        if number == unit_of(self.mbaff, self.count) {
            self.column
        } else {
            column_before(self.column, self.width)
        }
    }

    /// What is kept of the macroblock to the left of the next one (6.4.9), outside MBAFF.
    pub fn left(&self) -> Option<K>
        requires { self.now.mbaff ≡ false }
        ensures value { (shape : SliceShape) (mbs : List Mb) → AreRows K.of shape self.now mbs → result ≡ kept_at K.of mbs (slice.left_number shape.width shape.first (length mbs)) }
        ensures is { IfSome result K.Is }
    {
        if self.column == 0 {
            None
        } else {
            self.kept.back().copied()
        }
    }

    /// What is kept of the macroblock above the next one (6.4.9), outside MBAFF.
    pub fn above(&self) -> Option<K>
        requires { self.now.mbaff ≡ false }
        ensures value { (shape : SliceShape) (mbs : List Mb) → AreRows K.of shape self.now mbs → result ≡ kept_at K.of mbs (slice.above_number shape.width (length mbs)) }
        ensures is { IfSome result K.Is }
    {
        self.kept.nth_back(self.width as usize - 1).copied()
    }
}

ghost use Rattle.std.specs.Prelude.{◌≡◌, ◌+◌, ◌-◌, ◌%◌, ◌<◌};
ghost use Rattle.h264_types.specs.LastRows as rows;

/// The number of the pair of macroblock k in MBAFF, else that of the macroblock.
fn unit_of(mbaff: bool, k: u32) -> u32
    ensures { result ≡ rows.unit_of mbaff k }
{
    if mbaff { k / 2 } else { k }
}

/// The column behind this one, in rows of `width`.
fn column_behind(column: u32, width: u32) -> u32
    requires { column < width }
    ensures { result ≡ (column + 1) % width }
{
    if column + 1 == width { 0 } else { column + 1 }
}

/// The column before this one, in rows of `width`.
fn column_before(column: u32, width: u32) -> u32
    requires { column < width }
    ensures { result ≡ (column + (width - 1)) % width }
{
    if column == 0 { width - 1 } else { column - 1 }
}
