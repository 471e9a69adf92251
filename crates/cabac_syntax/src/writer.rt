//! The data of a slice, written one macroblock at a time.
ghost use Rattle.std.specs.Prelude.{◌≡◌, Bool, List, ℕ, false, nat_lt, IfOk};
ghost use Rattle.h264_types.specs.declared.macroblock.Mb.{Mb};
ghost use Rattle.h264_types.specs.declared.slice_shape.SliceShape.{SliceShape};
ghost use Rattle.cabac_syntax.specs.Standing.{GoesOn};
ghost use Rattle.cabac_syntax.specs.Written.{Wrote, WritesIn};
ghost use Rattle.cabac_syntax.specs.Kept.{AreOfShape, IsOpen};

use crate::out_segment::{write_behind, write_first, write_flag, write_last};
use cabac_contexts::{Contexts, OutCoder};
use cabac_macroblock::write_macroblock;
use exp_golomb::BitSink;
use h264_types::{Layer, Mb, Rows, SliceShape};
use init_table::InitTable;
use slice_data::{PutFault, SliceWriter};
use std::alloc::{AllocError as Memory, Global};
use std::mem;

/// Where a writer stands: before the first macroblock, with no bit put; behind a macroblock; or behind want of memory.
#[derive(Drop)]
pub enum Phase<B: BitSink> {
    Fresh(Contexts, B),
    Running(OutCoder<B>),
    Over,
}

/// A writer of slice data. It stands for the bits before the slice data, and for the macroblocks that were put.
#[derive(Drop)]
pub struct CabacWriter<B: BitSink> {
    alloc: Global,
    shape: SliceShape,
    /// The last macroblocks put, on which the contexts of the next one rest (9.3.3.1.1).
    rows: Rows<Mb>,
    phase: Phase<B>,
    ghost of_shape: { AreOfShape shape rows },
    ghost open: { IsOpen phase },
}

/// The coder of what is to come: the first segment is started where none was.
#[inline(always)]
fn begun<B: BitSink>(alloc: Global, phase: Phase<B>) -> Result<OutCoder<B>, Memory>
    requires { IsOpen phase }
    ensures going { IfOk result (λ coder. nat_lt coder.encoder.range 256 ≡ false) }
    ensures wrote { (start : ℕ → ℕ × Bool) (shape : SliceShape) (before : List Bool) (done : List Mb)
        → WritesIn B.bits phase start shape before done → IfOk result (λ coder. Wrote start shape before (GoesOn shape done) coder) }
{
    match phase {
        Phase::Fresh(contexts, bits) => write_first(alloc, contexts, bits),
        Phase::Running(coder) => Ok(coder),
        Phase::Over => Err(Memory),
    }
}

impl<B: BitSink> CabacWriter<B> {
    ghost use Rattle.std.specs.Prelude.{◌++◌, ◌∷◌, [], Bool, List, IfOk, OnOk};
    ghost use Rattle.h264_types.specs.declared.layer.Layer.TheVariants.{Cabac};
    ghost use Rattle.h264_types.specs.declared.macroblock.Mb.{Mb};
    ghost use Rattle.h264_types.specs.declared.slice_shape.SliceShape.{SliceShape};
    ghost use Rattle.init_table.specs.declared.table.InitTable.{InitTable};
    ghost use Rattle.slice_data.specs.Writing.{MayPut};
    ghost use Rattle.cabac_syntax.specs.SliceData.{IsBuiltShape};
    ghost use Rattle.cabac_syntax.specs.Written.{WritesFor};

    /// A writer of slice data behind what was put into `bits`, by this table of initial pairs. Puts no bit.
    pub fn start(
        alloc: Global,
        shape: SliceShape,
        init: &InitTable,
        bits: B,
    ) -> Result<CabacWriter<B>, Memory>
        requires { IsBuiltShape shape }
        ensures { IfOk result (λ writer. WritesFor B.bits init.now writer.shape writer.rows writer.phase shape (B.bits bits) []) }
    {
        let rows = Rows::start(alloc, &shape)?;
        let contexts = Contexts::start(init, shape.qp, shape.column);
        Ok(CabacWriter {
            alloc,
            shape,
            rows,
            phase: Phase::Fresh(contexts, bits),
        })
    }

    /// Writes the next macroblock into the coder of the phase, with end_of_slice_flag before it where it isn't the first.
    #[inline(always)]
    fn put_behind(&mut self, mb: &Mb) -> Result<(), Memory>
        requires { MayPut Cabac (λ init writer. WritesFor B.bits init writer.shape writer.rows writer.phase) self.old mb.now }
        ensures { (init : InitTable) (shape : SliceShape) (before : List Bool) (done : List Mb)
            → WritesFor B.bits init self.old.shape self.old.rows self.old.phase shape before done
            → OnOk result (WritesFor B.bits init self.new.shape self.new.rows self.new.phase shape before (done ++ mb.now ∷ [])) }
    {
        let Phase::Running(coder) = &mut self.phase else {
            return Err(Memory);
        };
        let at = self.rows.count();
        let Ok(()) = write_flag(coder, at) else {
            self.phase = Phase::Over;
            return Err(Memory);
        };
        let Ok(()) = write_macroblock(coder, &self.shape, &self.rows, at, mb) else {
            self.phase = Phase::Over;
            return Err(Memory);
        };
        if mb.kind.is_i_pcm() {
            let Phase::Running(coder) = mem::replace(&mut self.phase, Phase::Over) else {
                return Err(Memory);
            };
            let next = write_behind(self.alloc, coder, mb)?;
            self.rows.push(mb);
            self.phase = Phase::Running(next);
            return Ok(());
        }
        self.rows.push(mb);
        Ok(())
    }

    /// Writes the next macroblock; before the first one the first segment is started.
    fn put_next(&mut self, mb: &Mb) -> Result<(), Memory>
        requires { MayPut Cabac (λ init writer. WritesFor B.bits init writer.shape writer.rows writer.phase) self.old mb.now }
        ensures { (init : InitTable) (shape : SliceShape) (before : List Bool) (done : List Mb)
            → WritesFor B.bits init self.old.shape self.old.rows self.old.phase shape before done
            → OnOk result (WritesFor B.bits init self.new.shape self.new.rows self.new.phase shape before (done ++ mb.now ∷ [])) }
    {
        let Phase::Running(_) = &self.phase else {
            let phase = mem::replace(&mut self.phase, Phase::Over);
            self.phase = Phase::Running(begun(self.alloc, phase)?);
            return self.put_behind(mb);
        };
        self.put_behind(mb)
    }
}

impl<B: BitSink> SliceWriter for CabacWriter<B> {
    ghost use Rattle.std.specs.Prelude.{false};
    ghost use Rattle.h264_types.specs.declared.layer.Layer.TheVariants.{Cabac};
    ghost use Rattle.cabac_syntax.specs.SliceData.{IsNormalData};
    ghost use Rattle.cabac_syntax.specs.Written.{WritesFor};

    type Sink = B;

    const LAYER: Layer = Layer::Cabac;

    ghost LAYER = { Cabac };

    ghost is_data = { IsNormalData };

    ghost is_beyond = { λ _ _. false };

    ghost writes = { λ init writer. WritesFor B.bits init writer.shape writer.rows writer.phase };

    fn put(&mut self, mb: &Mb) -> Result<(), PutFault> {
        match self.put_next(mb) {
            Ok(()) => Ok(()),
            Err(_) => Err(PutFault::Memory),
        }
    }

    fn finish(self) -> Result<B, Memory> {
        let CabacWriter { alloc, phase, .. } = self;
        let coder = begun(alloc, phase)?;
        write_last(coder)
    }
}
