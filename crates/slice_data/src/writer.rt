use crate::fault::PutFault;
use exp_golomb::BitSink;
use h264_types::{Layer, Mb};
use std::alloc::AllocError as Memory;

/// A writer of slice data. It stands for the bits before the slice data, and for the macroblocks that were put.
///
/// Of its entropy layer the ghost members say which bits are the slice data of a list of macroblocks, with so many bits of the
/// slice before them (`is_data`), and whether a macroblock has a level that can't be said in it (`is_beyond`); of the writer
/// what it stands for (`writes`). Slice data in CABAC rest on the table of initial pairs.
pub trait SliceWriter: Drop {
    ghost use Rattle.std.specs.Prelude.{◌≡◌, ◌++◌, ℕ, Bool, List, length, IfOk};
    ghost use Rattle.h264_types.specs.declared.layer.Layer.{Layer};
    ghost use Rattle.h264_types.specs.declared.macroblock.Mb.{Mb};
    ghost use Rattle.h264_types.specs.declared.slice_shape.SliceShape.{SliceShape};
    ghost use Rattle.init_table.specs.declared.table.InitTable.{InitTable};
    ghost use Rattle.slice_data.specs.Writing.{MayPut, PutGives};

    /// What takes the bits.
    type Sink: BitSink;

    /// The entropy layer that is written.
    const LAYER: Layer;

    ghost LAYER: { Layer };

    ghost is_data: { InitTable → SliceShape → ℕ → List Mb → List Bool → Type 0 };

    ghost is_beyond: { SliceShape → Mb → Bool };

    ghost writes: { InitTable → Self → SliceShape → List Bool → List Mb → Type 0 };

    /// Writes the next macroblock. Beyond: a level can't be said in this layer, and nothing was written; another macroblock may
    /// follow. Where memory runs out what was written isn't said.
    fn put(&mut self, mb: &Mb) -> Result<(), PutFault>
        requires { MayPut LAYER writes self.old mb.now }
        ensures { (init : InitTable) (shape : SliceShape) (before : List Bool) (done : List Mb) → writes init self.old shape before done
            → PutGives is_beyond (writes init) self.new shape before done mb.now result };

    /// Writes what follows the last macroblock, and gives the sink back.
    fn finish(self) -> Result<Self::Sink, Memory>
        ensures { (init : InitTable) (shape : SliceShape) (before : List Bool) (done : List Mb) → writes init self shape before done
            → IfOk result (λ sink. (text : List Bool) × is_data init shape (length before) done text × (Self.Sink.bits sink ≡ before ++ text)) };
}
