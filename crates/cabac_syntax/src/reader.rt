//! The data of a slice, read one macroblock at a time.
ghost use Rattle.std.specs.Prelude.{◌≡◌};
ghost use Rattle.cabac_syntax.specs.Kept.{AreOfShape, IsGoing};

use crate::segment::{read_behind, read_first};
use crate::tail::read_tail;
use cabac_contexts::{Contexts, InCoder};
use cabac_engine::BinSource;
use cabac_macroblock::read_macroblock;
use exp_golomb::BitSource;
use h264_types::{Mb, Rows, SliceShape};
use init_table::InitTable;
use slice_data::{SliceFault, SliceReader};
use std::alloc::{AllocError as Memory, Global};
use std::mem;

/// Where a reader stands: before the first macroblock, with no bit taken; behind a macroblock; at the end; or behind a refusal.
#[derive(Drop)]
pub enum Phase<B: BitSource> {
    Fresh(Contexts, B),
    Running(InCoder<B>),
    Ended(B),
    Over,
}

/// A reader of slice data. It stands for all bits of the slice behind its header, and for the macroblocks that it has given.
#[derive(Drop)]
pub struct CabacReader<B: BitSource> {
    shape: SliceShape,
    /// The last macroblocks given, on which the contexts of the next one rest (9.3.3.1.1).
    rows: Rows<Mb>,
    phase: Phase<B>,
    ghost of_shape: { AreOfShape shape rows },
    ghost going: { IsGoing phase },
}

impl<B: BitSource> CabacReader<B> {
    ghost use Rattle.std.specs.Prelude.{◌≡◌, ◌<◌, ◌+◌, ◌*◌, ◌≤◌, [], ℕ, Bool, List, true, false, nat_lt, length, IfOk, MatchBool};
    ghost use Rattle.cabac_contexts.specs.Coders.{InCoding};
    ghost use Rattle.h264_types.specs.declared.macroblock.Mb.{Mb};
    ghost use Rattle.h264_types.specs.declared.slice_shape.SliceShape.{SliceShape};
    ghost use Rattle.cabac_syntax.specs.declared.reader.Phase.TheVariants.{Running};
    ghost use Rattle.init_table.specs.declared.table.InitTable.{InitTable};
    ghost use Rattle.slice_data.specs.Reading.{NextGives, step_of};
    ghost use Rattle.cabac_syntax.specs.SliceData.{IsBuiltShape, HasData, IsData, first_states};
    ghost use Rattle.cabac_syntax.specs.Standing.{Knows, IsNext, IsEnd, Stands, StandsFor, left_in};

    /// A reader of the slice data that are left in `bits`, which go on to their end, by this table of initial pairs. Takes no
    /// bit.
    pub fn start(
        alloc: Global,
        shape: SliceShape,
        init: &InitTable,
        bits: B,
    ) -> Result<CabacReader<B>, Memory>
        requires { IsBuiltShape shape }
        ensures { IfOk result (λ reader. StandsFor B.taken B.left init.now reader.shape reader.rows reader.phase shape (length (B.taken bits)) (B.left bits) []) }
    {
        let rows = Rows::start(alloc, &shape)?;
        let contexts = Contexts::start(init, shape.qp, shape.column);
        Ok(CabacReader {
            shape,
            rows,
            phase: Phase::Fresh(contexts, bits),
        })
    }

    /// Reads the next macroblock, whose bins stand ahead in the coder of the phase.
    #[inline(always)]
    fn read_next(&mut self, mb: &mut Mb) -> Result<bool, SliceFault>
        ensures { (coder : InCoding) (init : InitTable) (shape : SliceShape) (pos : ℕ) (all : List Bool) (done : List Mb)
            → self.old.phase ≡ Running coder → Stands self.old.shape self.old.rows shape done (Knows (first_states init shape) shape pos all (IsNext shape done) coder)
            → NextGives HasData (IsData init) (λ reader. StandsFor B.taken B.left init reader.shape reader.rows reader.phase) (λ reader. left_in B.left reader.phase) self.new shape pos all done (step_of mb.new result) }
    {
        if !self.has_room() {
            return Err(SliceFault::NoReading);
        }
        let at = self.rows.count();
        let Phase::Running(coder) = &mut self.phase else {
            return Err(SliceFault::NoReading);
        };
        let Some(()) = read_macroblock(coder, &self.shape, &self.rows, at, false, mb) else {
            self.phase = Phase::Over;
            return Err(SliceFault::NoReading);
        };
        if mb.kind.is_i_pcm() {
            let Phase::Running(coder) = mem::replace(&mut self.phase, Phase::Over) else {
                return Err(SliceFault::NoReading);
            };
            let Some(next) = read_behind(coder, mb) else {
                return Err(SliceFault::NoReading);
            };
            self.rows.push(mb);
            self.phase = Phase::Running(next);
            return Ok(true);
        }
        self.rows.push(mb);
        Ok(true)
    }

    /// Reads what stands behind the last segment.
    fn read_end(&mut self, coder: InCoder<B>) -> Result<bool, SliceFault>
        requires { nat_lt coder.decoder.range 256 ≡ true }
        ensures { (init : InitTable) (shape : SliceShape) (pos : ℕ) (all : List Bool) (done : List Mb) (mb : Mb)
            → HasData shape done → Knows (first_states init shape) shape pos all (IsEnd done) coder
            → NextGives HasData (IsData init) (λ reader. StandsFor B.taken B.left init reader.shape reader.rows reader.phase) (λ reader. left_in B.left reader.phase) self.new shape pos all done (step_of mb result) }
    {
        let (_, bits) = coder.into_parts();
        let mut bits = bits;
        let whole = read_tail(&mut bits);
        self.phase = Phase::Ended(bits);
        if whole {
            Ok(false)
        } else {
            Err(SliceFault::NoReading)
        }
    }

    /// Starts the first segment and reads the first macroblock; behind the end and a refusal there is none.
    fn read_first_one(&mut self, mb: &mut Mb) -> Result<bool, SliceFault>
        requires { (coder : InCoding) → self.old.phase ≡ Running coder → ⊥ }
        ensures { (init : InitTable) (shape : SliceShape) (pos : ℕ) (all : List Bool) (done : List Mb)
            → StandsFor B.taken B.left init self.old.shape self.old.rows self.old.phase shape pos all done
            → NextGives HasData (IsData init) (λ reader. StandsFor B.taken B.left init reader.shape reader.rows reader.phase) (λ reader. left_in B.left reader.phase) self.new shape pos all done (step_of mb.new result) }
    {
        let Phase::Fresh(contexts, bits) = mem::replace(&mut self.phase, Phase::Over) else {
            return Err(SliceFault::NoReading);
        };
        let Some(coder) = read_first(contexts, bits) else {
            return Err(SliceFault::NoReading);
        };
        self.phase = Phase::Running(coder);
        self.read_next(mb)
    }

    /// Whether the picture has room for a further macroblock.
    fn has_room(&self) -> bool
        ensures { MatchBool result
            (self.now.shape.first + self.now.rows.count < self.now.shape.width * self.now.shape.height)
            (self.now.shape.width * self.now.shape.height ≤ self.now.shape.first + self.now.rows.count) }
    {
        let size = self.shape.width * self.shape.height;
        self.rows.count() < size.saturating_sub(self.shape.first)
    }
}

impl<B: BitSource> SliceReader for CabacReader<B> {
    ghost use Rattle.cabac_syntax.specs.SliceData.{HasData, IsData};
    ghost use Rattle.cabac_syntax.specs.Standing.{StandsFor, left_in};

    ghost has_data = { HasData };

    ghost is_data = { IsData };

    ghost stands = { λ init reader. StandsFor B.taken B.left init reader.shape reader.rows reader.phase };

    ghost left = { λ reader. left_in B.left reader.phase };

    fn next_into(&mut self, mb: &mut Mb) -> Result<bool, SliceFault> {
        let Phase::Running(coder) = &mut self.phase else {
            return self.read_first_one(mb);
        };
        match coder.end() {
            Some(false) => self.read_next(mb),
            Some(true) => {
                let Phase::Running(coder) = mem::replace(&mut self.phase, Phase::Over) else {
                    return Err(SliceFault::NoReading);
                };
                self.read_end(coder)
            }
            None => {
                self.phase = Phase::Over;
                Err(SliceFault::NoReading)
            }
        }
    }

    ghost lists_are_slices = { λ shape mbs has. has.slice };
}
