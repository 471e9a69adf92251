// A slice, read into the list of its macroblocks.
ghost use Rattle.std.specs.Prelude.{[], ℕ, Bool, List, length, IfOk, IfErr};
ghost use Rattle.bit_texts.specs.Bits.{bits_of};
ghost use Rattle.h264_types.specs.SliceShape.{IsSliceShape};
ghost use Rattle.init_table.specs.declared.table.InitTable.{InitTable};
ghost use Rattle.param_sets.specs.Sets.{SetMaps};
ghost use Rattle.slice_rewrite.specs.Layers.{HasDataIn, IsBuiltIn, IsDataIn};
ghost use Rattle.slice_rewrite.specs.SliceForms.{AreDataCounted, IsCounted, IsNoDataRead, IsNotRead, IsOpened, IsSliceRead};

use crate::fault::RewriteFault;
use crate::opening::{OpenSlice, open_slice};
use crate::slice::Slice;
use cabac_syntax::CabacReader;
use cavlc_syntax::CavlcReader;
use exp_golomb::SliceBits;
use h264_types::{Layer, Mb, MbKind, SliceShape};
use init_table::InitTable;
use param_sets::Sets;
use slice_data::SliceReader;
use std::alloc::Global;

/// Reads the payload of a slice unit with this header byte under the sets that stand, with this table of initial pairs where it
/// is in CABAC. Outside: the payload has no reading. Stop never comes.
pub fn read_slice(
    alloc: Global,
    sets: &Sets,
    init: &InitTable,
    header: u8,
    payload: &[u8],
) -> Result<Slice, RewriteFault>
    ensures ok { IfOk result (λ slice. IsSliceRead init.now sets.now header (bits_of payload.now) slice.header slice.mbs.items) }
    ensures err { IfErr result (IsNotRead Layer.Cavlc init.now sets.now header (bits_of payload.now)) }
{
    let opened = open_slice(alloc, sets, header, payload, Layer::Cavlc)?;
    let mbs = read_in(alloc, init, opened.layer(), opened.shape, opened.bits)?;
    Ok(Slice {
        header: opened.header,
        mbs,
    })
}

impl OpenSlice<'_> {
    /// Reads the slice data to their end, and answers how many macroblocks they have.
    ///
    /// Outside: the payload has no reading. Stop never comes.
    pub fn count(&self, alloc: Global, init: &InitTable) -> Result<u32, RewriteFault>
        requires { (to : Layer) × (sets : SetMaps) × (header : ℕ) × (bits : List Bool) × IsOpened to sets header bits self.now }
        ensures ok { (to : Layer) (sets : SetMaps) (header : ℕ) (bits : List Bool) → IsOpened to sets header bits self.now → IfOk result (IsCounted to init.now sets header bits) }
        ensures err { (to : Layer) (sets : SetMaps) (header : ℕ) (bits : List Bool) → IsOpened to sets header bits self.now → IfErr result (IsNotRead to init.now sets header bits) }
    {
        let bits = self.bits.again();
        match self.layer() {
            Layer::Cavlc => {
                let reader = CavlcReader::start(alloc, self.shape, bits)?;
                count_data(self.shape, reader)
            }
            Layer::Cabac => {
                let reader = CabacReader::start(alloc, self.shape, init, bits)?;
                count_data(self.shape, reader)
            }
        }
    }
}

// Reads slice data to their end, and counts their macroblocks.
fn count_data<R: SliceReader>(shape: SliceShape, mut reader: R) -> Result<u32, RewriteFault>
    requires shape { IsSliceShape shape }
    requires reads { (init : InitTable) × (pos : ℕ) × (left : List Bool) × R.stands init reader shape pos left [] }
    ensures ok { (init : InitTable) (pos : ℕ) (left : List Bool) → R.stands init reader shape pos left [] → IfOk result (AreDataCounted R.has_data (R.is_data init) shape pos left) }
    ensures err { (init : InitTable) (pos : ℕ) (left : List Bool) → R.stands init reader shape pos left [] → IfErr result (IsNoDataRead R.has_data (R.is_data init) shape pos left) }
{
    let mut mb = Mb::without_elements(MbKind::Skip);
    for count in 0..shape.width * shape.height + 1 {
        let more = reader.next_into(&mut mb)?;
        if !more {
            return Ok(count);
        }
    }
    unreachable!()
}

// Reads slice data of a layer to their end.
fn read_in(
    alloc: Global,
    init: &InitTable,
    layer: Layer,
    shape: SliceShape,
    bits: SliceBits<'_>,
) -> Result<Vec<Mb>, RewriteFault>
    requires shape { IsSliceShape shape }
    requires built { IsBuiltIn layer shape }
    ensures ok { IfOk result (λ mbs. HasDataIn layer shape mbs.items × IsDataIn layer init.now shape (length bits.entry.taken) mbs.items bits.entry.left) }
    ensures err { IfErr result (IsNoDataRead (HasDataIn layer) (IsDataIn layer init.now) shape (length bits.entry.taken) bits.entry.left) }
{
    match layer {
        Layer::Cavlc => read_data(alloc, shape, CavlcReader::start(alloc, shape, bits)?),
        Layer::Cabac => read_data(alloc, shape, CabacReader::start(alloc, shape, init, bits)?),
    }
}

// Reads slice data to their end.
fn read_data<R: SliceReader>(
    alloc: Global,
    shape: SliceShape,
    mut reader: R,
) -> Result<Vec<Mb>, RewriteFault>
    requires shape { IsSliceShape shape }
    requires reads { (init : InitTable) × (pos : ℕ) × (left : List Bool) × R.stands init reader shape pos left [] }
    ensures ok { (init : InitTable) (pos : ℕ) (left : List Bool) → R.stands init reader shape pos left [] → IfOk result (λ mbs. R.has_data shape mbs.items × R.is_data init shape pos mbs.items left) }
    ensures err { (init : InitTable) (pos : ℕ) (left : List Bool) → R.stands init reader shape pos left [] → IfErr result (IsNoDataRead R.has_data (R.is_data init) shape pos left) }
{
    let mut mbs = Vec::new(alloc);
    let mut mb = Mb::without_elements(MbKind::Skip);
    for _ in 0..shape.width * shape.height + 1 {
        let more = reader.next_into(&mut mb)?;
        if !more {
            return Ok(mbs);
        }
        mbs.push(mb)?;
    }
    unreachable!()
}
