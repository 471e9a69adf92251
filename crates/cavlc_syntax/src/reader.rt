//! The data of a slice, read one macroblock at a time.
ghost use Rattle.cavlc_syntax.specs.Kept.{KeepsShape, AreOfShape};

use crate::bound::prefix_bound;
use crate::end::read_end;
use crate::field::{is_bottom, read_field};
use crate::run::read_run;
use cavlc_macroblock::read_macroblock;
use cavlc_mb_residual::{Around, Counts};
use exp_golomb::BitSource;
use h264_types::{Mb, MbKind, Rows, SliceShape};
use slice_data::{SliceFault, SliceReader};
use std::alloc::{AllocError as Memory, Global};

/// A reader of slice data. It stands for all bits of the slice behind its header, and for the macroblocks that it
/// has given.
#[derive(Drop)]
pub struct CavlcReader<B> {
    shape: SliceShape,
    bits: B,
    /// What the last macroblocks given count, for the nC of the next one (9.2.1).
    rows: Rows<Counts>,
    /// How many skipped macroblocks are still to be given, where an mb_skip_run above 0 was read. None: behind a macroblock
    /// that isn't skipped, and at the beginning.
    run: Option<u32>,
    /// The pair flag of the last macroblock given. Behind a skipped top the mb_field_decoding_flag of the bottom was read
    /// with the top.
    field: bool,
    ghost is_shape: { KeepsShape shape },
    ghost of_shape: { AreOfShape shape rows },
}

impl<B: BitSource> CavlcReader<B> {
    ghost use Rattle.std.specs.Prelude.{◌≡◌, ◌<◌, ◌+◌, ◌-◌, ◌*◌, [], ℕ, Bool, List, Some, true, false, MatchBool, length, IfOk};
    ghost use Rattle.bit_texts.specs.Bits.{more_data};
    ghost use Rattle.h264_types.specs.declared.macroblock.Mb.{Mb};
    ghost use Rattle.h264_types.specs.declared.slice_shape.SliceShape.{SliceShape};
    ghost use Rattle.h264_types.specs.SliceShape.{IsSliceShape};
    ghost use Rattle.cavlc_syntax.specs.Places.{place_in};
    ghost use Rattle.cavlc_syntax.specs.Standing.{left_of, IsAheadOfFlag, IsBehindRun, StandsBefore, StandsFor, Answers};

    /// A reader of the slice data that are left in `bits`, which go on to their end. Takes no bit.
    pub fn start(alloc: Global, shape: SliceShape, bits: B) -> Result<CavlcReader<B>, Memory>
        requires { IsSliceShape shape }
        ensures stands { IfOk result (λ reader. StandsFor (place_in B.taken B.left) reader shape (length (B.taken bits)) (B.left bits) []) }
        ensures bits { IfOk result (λ reader. reader.bits ≡ bits) }
    {
        let rows = Rows::start(alloc, &shape)?;
        Ok(CavlcReader {
            shape,
            bits,
            rows,
            run: None,
            field: false,
        })
    }

    /// Gives a skipped macroblock, the first of a run of which so many are left then, as `next_into` does.
    fn give_skipped(&mut self, left: u32, mb: &mut Mb) -> Result<bool, SliceFault>
        requires { self.old.shape.first + self.old.rows.count < self.old.shape.width * self.old.shape.height }
        ensures { (shape : SliceShape) (pos : ℕ) (all : List Bool) (done : List Mb)
            → StandsBefore self.old (Some (left + 1)) (IsBehindRun shape done (left + 1) (place_in B.taken B.left self.old.bits)) shape pos all done
            → Answers B.taken B.left self.new shape pos all done mb.new result }
    {
        let Some(field) = read_field(&mut self.bits, &self.shape, &self.rows, self.field, left)
        else {
            return Err(SliceFault::NoReading);
        };
        let mut skipped = Mb::without_elements(MbKind::Skip);
        skipped.field = field;
        self.rows.push_coded(&skipped);
        self.run = Some(left);
        self.field = field;
        *mb = skipped;
        Ok(true)
    }

    /// Reads a macroblock that isn't skipped, as `next_into` does.
    fn read_coded(&mut self, mb: &mut Mb) -> Result<bool, SliceFault>
        requires { self.old.shape.first + self.old.rows.count < self.old.shape.width * self.old.shape.height }
        ensures { (shape : SliceShape) (pos : ℕ) (all : List Bool) (done : List Mb)
            → StandsBefore self.old (Some 0) (IsAheadOfFlag shape done (place_in B.taken B.left self.old.bits)) shape pos all done
            → Answers B.taken B.left self.new shape pos all done mb.new result }
    {
        let Some(field) = read_field(&mut self.bits, &self.shape, &self.rows, self.field, 0) else {
            return Err(SliceFault::NoReading);
        };
        let around = Around::of_next(&self.shape, &self.rows, field);
        let bound = prefix_bound(&self.shape);
        let Some(()) = read_macroblock(&mut self.bits, &self.shape, field, &around, bound, mb)
        else {
            return Err(SliceFault::NoReading);
        };
        self.rows.push_coded(mb);
        self.run = None;
        self.field = field;
        Ok(true)
    }

    /// Whether no macroblock stands behind those given.
    fn is_at_end(&self) -> bool
        ensures { MatchBool result ((0 < self.now.rows.count) × (left_of self.now.run ≡ 0) × (more_data (B.left self.now.bits) ≡ false))
            (0 < self.now.rows.count → left_of self.now.run ≡ 0 → more_data (B.left self.now.bits) ≡ true) }
    {
        self.rows.count() > 0 && self.run.unwrap_or(0) == 0 && !self.bits.more_rbsp_data()
    }

    /// How many macroblocks more the picture has room for.
    fn room(&self) -> u32
        ensures { result ≡ self.now.shape.width * self.now.shape.height - (self.now.shape.first + self.now.rows.count) }
    {
        let size = self.shape.width * self.shape.height;
        size.saturating_sub(self.shape.first)
            .saturating_sub(self.rows.count())
    }

    /// The source of bits, as it is.
    pub fn into_bits(self) -> B
        ensures { result ≡ self.bits }
    {
        self.bits
    }
}

impl<B: BitSource> SliceReader for CavlcReader<B> {
    ghost use Rattle.cavlc_syntax.specs.SliceText.{HasText, IsText};
    ghost use Rattle.cavlc_syntax.specs.Places.{place_in};
    ghost use Rattle.cavlc_syntax.specs.Standing.{StandsFor};

    ghost has_data = { HasText };

    ghost is_data = { λ _. IsText };

    ghost stands = { λ _. StandsFor (place_in B.taken B.left) };

    ghost left = { λ reader. B.left reader.bits };

    fn next_into(&mut self, mb: &mut Mb) -> Result<bool, SliceFault> {
        if self.is_at_end() {
            return if !is_bottom(&self.shape, self.rows.count()) && read_end(&mut self.bits) {
                Ok(false)
            } else {
                Err(SliceFault::NoReading)
            };
        }
        let room = self.room();
        if room == 0 {
            return Err(SliceFault::NoReading);
        }
        let Some(run) = read_run(&mut self.bits, self.shape.kind, room, self.run) else {
            return Err(SliceFault::NoReading);
        };
        if run > 0 {
            self.give_skipped(run - 1, mb)
        } else {
            self.read_coded(mb)
        }
    }

    ghost lists_are_slices = { λ shape mbs has. has.slice };
}
