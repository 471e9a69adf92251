//! The data of a slice, written one macroblock at a time.
ghost use Rattle.std.specs.Prelude.{◌≡◌, ◌≤◌, length};
ghost use Rattle.bit_texts.specs.Texts.{Appends};
ghost use Rattle.cavlc_macroblock.specs.Reading.{IsSent};
ghost use Rattle.cavlc_mb_residual.specs.Counts.{IsAround};
ghost use Rattle.cavlc_syntax.specs.Kept.{KeepsShape, AreOfShape};
ghost use Rattle.cavlc_syntax.specs.SliceText.{put_text};
ghost use Rattle.h264_types.specs.SliceShape.{IsSliceShape};

use crate::bound::{needs_longer_prefix, prefix_bound};
use crate::end::write_end;
use crate::field::write_field;
use crate::run::{write_last_run, write_run};
use cavlc_macroblock::write_macroblock;
use cavlc_mb_residual::{Around, Counts};
use exp_golomb::BitSink;
use h264_types::{Layer, Mb, Rows, SliceShape};
use slice_data::{PutFault, SliceWriter};
use std::alloc::{AllocError as Memory, Global};

/// A writer of slice data. It stands for the bits before the slice data, and for the macroblocks that were put.
#[derive(Drop)]
pub struct CavlcWriter<B> {
    shape: SliceShape,
    bits: B,
    /// What the last macroblocks put count, for the nC of the next one (9.2.1).
    rows: Rows<Counts>,
    /// How many of the last ones are skipped, and in no mb_skip_run yet.
    run: u32,
    ghost is_shape: { KeepsShape shape },
    ghost of_shape: { AreOfShape shape rows },
    ghost few: { run ≤ 139264 },
}

impl<B: BitSink> CavlcWriter<B> {
    ghost use Rattle.std.specs.Prelude.{[], ◌∷◌, ◌++◌, ◌%◌, ◌==◌, ◌&&◌, ◌||◌, nat_lt, Bool, List, length, IfOk};
    ghost use Rattle.h264_types.specs.declared.macroblock.Mb.{Mb};
    ghost use Rattle.h264_types.specs.declared.slice_shape.SliceShape.{SliceShape};
    ghost use Rattle.h264_types.specs.SliceShape.{IsSliceShape};
    ghost use Rattle.cavlc_syntax.specs.SliceText.{is_beyond_in};
    ghost use Rattle.cavlc_syntax.specs.Written.{WritesFor, PutsBits};
    ghost use Rattle.slice_data.specs.Writing.{BeginsSlice, PutGives};

    /// A writer of slice data behind what was put into `bits`. Puts no bit.
    pub fn start(alloc: Global, shape: SliceShape, bits: B) -> Result<CavlcWriter<B>, Memory>
        requires { IsSliceShape shape }
        ensures writes { IfOk result (λ writer. WritesFor B.bits writer shape (B.bits bits) []) }
        ensures bits { IfOk result (λ writer. writer.bits ≡ bits) }
    {
        let rows = Rows::start(alloc, &shape)?;
        Ok(CavlcWriter {
            shape,
            bits,
            rows,
            run: 0,
        })
    }

    /// Writes the next macroblock, where a skipped one puts no bit: mb_skip_run stands before the next one that isn't, or at
    /// the end. Beyond: a level needs a longer level_prefix than the profile has, and nothing was written; another
    /// macroblock may follow. Where memory runs out a front of the text was written.
    pub fn put(&mut self, mb: &Mb) -> Result<(), PutFault>
        requires { (shape : SliceShape) × (before : List Bool) × (done : List Mb) × WritesFor B.bits self.old shape before done × BeginsSlice shape (done ++ mb.now ∷ []) }
        ensures gives { (shape : SliceShape) (before : List Bool) (done : List Mb) → WritesFor B.bits self.old shape before done
            → PutGives is_beyond_in (WritesFor B.bits) self.new shape before done mb.now result }
        ensures bits { (shape : SliceShape) (before : List Bool) (done : List Mb) → WritesFor B.bits self.old shape before done
            → PutsBits shape done self.old.run (B.bits self.old.bits) (B.bits self.new.bits) mb.now result }
    {
        if mb.kind.is_skip() {
            self.rows.push_coded(mb);
            self.run += 1;
            return Ok(());
        }
        if needs_longer_prefix(mb, prefix_bound(&self.shape)) {
            return Err(PutFault::Beyond);
        }
        let around = Around::of_next(&self.shape, &self.rows, mb.field);
        let sends = self.sends_field();
        let Ok(()) = write_coded(&mut self.bits, &self.shape, sends, &around, self.run, mb) else {
            return Err(PutFault::Memory);
        };
        self.rows.push_coded(mb);
        self.run = 0;
        Ok(())
    }

    /// Whether mb_field_decoding_flag stands before the next macroblock, where that isn't skipped (7.3.4).
    fn sends_field(&self) -> bool
        ensures { result ≡ (self.now.shape.mbaff && (self.now.rows.count % 2 == 0 || nat_lt 0 self.now.run)) }
    {
        self.shape.mbaff && (self.rows.count() % 2 == 0 || self.run > 0)
    }
}

impl<B: BitSink> SliceWriter for CavlcWriter<B> {
    ghost use Rattle.h264_types.specs.declared.layer.Layer.TheVariants.{Cavlc};
    ghost use Rattle.cavlc_syntax.specs.SliceText.{IsText, is_beyond_in};
    ghost use Rattle.cavlc_syntax.specs.Written.{WritesFor};

    type Sink = B;

    const LAYER: Layer = Layer::Cavlc;

    ghost LAYER = { Cavlc };

    ghost is_data = { λ _. IsText };

    ghost is_beyond = { is_beyond_in };

    ghost writes = { λ _. WritesFor B.bits };

    fn put(&mut self, mb: &Mb) -> Result<(), PutFault> {
        CavlcWriter::put(self, mb)
    }

    fn finish(self) -> Result<B, Memory> {
        let CavlcWriter {
            mut bits,
            shape,
            run,
            ..
        } = self;
        write_last_run(&mut bits, shape.kind, run)?;
        write_end(&mut bits)?;
        Ok(bits)
    }
}

/// Appends mb_skip_run of the skipped macroblocks before a macroblock that isn't, its mb_field_decoding_flag where that is
/// sent, and the macroblock.
fn write_coded<B: BitSink>(
    bits: &mut B,
    shape: &SliceShape,
    sends_field: bool,
    around: &Around,
    run: u32,
    mb: &Mb,
) -> Result<(), Memory>
    requires is_shape { IsSliceShape shape.now }
    requires around { IsAround around.now }
    requires few { run ≤ 139264 }
    requires sent { IsSent shape.now mb.now.field 20 mb.now }
    ensures { Appends (B.bits bits.old) (B.bits bits.new) (put_text shape.now sends_field around.now (length (B.bits bits.old)) run mb.now) result }
{
    write_run(bits, shape.kind, run)?;
    write_field(bits, sends_field, mb.field)?;
    write_macroblock(bits, shape, around, mb)
}
