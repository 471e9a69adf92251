use crate::fault::SliceFault;
use h264_types::{Mb, MbKind};

/// What a reader gives: the next macroblock, or the end of the slice.
#[derive(Clone, Copy, Debug, PartialEq, Eq)]
pub enum Step {
    Mb(Mb),
    End,
}

/// A reader of slice data. It stands for all bits of the slice behind its header, and for the macroblocks that it has given.
///
/// Of its entropy layer the ghost members say which lists of macroblocks have slice data in it (`has_data`), and which bits
/// are those of a list, with so many bits of the slice before them (`is_data`); of the reader what it stands for (`stands`)
/// and the bits that are left in its source (`left`). Slice data in CABAC rest on the table of initial pairs.
pub trait SliceReader: Drop {
    ghost use Rattle.std.specs.Prelude.{ℕ, Bool, List};
    ghost use Rattle.h264_types.specs.Valid.{IsSlice};
    ghost use Rattle.h264_types.specs.declared.macroblock.Mb.{Mb};
    ghost use Rattle.h264_types.specs.declared.slice_shape.SliceShape.{SliceShape};
    ghost use Rattle.init_table.specs.declared.table.InitTable.{InitTable};
    ghost use Rattle.slice_data.specs.Reading.{NextGives, step_of};

    ghost has_data: { SliceShape → List Mb → Type 0 };

    ghost is_data: { InitTable → SliceShape → ℕ → List Mb → List Bool → Type 0 };

    ghost stands: { InitTable → Self → SliceShape → ℕ → List Bool → List Mb → Type 0 };

    ghost left: { Self → List Bool };

    /// Fills `mb`, wholly, with the next macroblock, or answers false at the end of the slice, where no bit is left.
    /// NoReading: no list of macroblocks has the bits behind the header as its data. After a refusal what the reader and
    /// `mb` hold isn't said.
    fn next_into(&mut self, mb: &mut Mb) -> Result<bool, SliceFault>
        ensures { (init : InitTable) (shape : SliceShape) (pos : ℕ) (all : List Bool) (done : List Mb) → stands init self.old shape pos all done
            → NextGives has_data (is_data init) (stands init) left self.new shape pos all done (step_of mb.new result) };

    /// The next macroblock, or the end of the slice, as `next_into`.
    final fn next(&mut self) -> Result<Step, SliceFault>
        ensures { (init : InitTable) (shape : SliceShape) (pos : ℕ) (all : List Bool) (done : List Mb) → stands init self.old shape pos all done
            → NextGives has_data (is_data init) (stands init) left self.new shape pos all done result }
    {
        let mut mb = Mb::without_elements(MbKind::Skip);
        match self.next_into(&mut mb) {
            Ok(true) => Ok(Step::Mb(mb)),
            Ok(false) => Ok(Step::End),
            Err(fault) => Err(fault),
        }
    }

    ghost lists_are_slices: { (shape : SliceShape) (mbs : List Mb) → has_data shape mbs → IsSlice shape mbs };
}
