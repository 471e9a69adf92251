// A slice, read and written macroblock by macroblock.
ghost use Rattle.std.specs.Prelude.{◌≡◌, ◌<◌, [], ℕ, List, Bool, length, IfOk, IfErr, OnErr};
ghost use Rattle.bit_texts.specs.Bits.{bits_of};
ghost use Rattle.h264_types.specs.SliceShape.{IsSliceShape};
ghost use Rattle.h264_types.specs.declared.slice_shape.SliceShape.{SliceShape};
ghost use Rattle.param_sets.specs.Sets.{SetMaps};
ghost use Rattle.init_table.specs.declared.table.InitTable.{InitTable};
ghost use Rattle.slice_rewrite.specs.Options.{whole_run};
ghost use Rattle.slice_rewrite.specs.Picks.{IsPickedForm};
ghost use Rattle.slice_rewrite.specs.declared.pick.Tries.TheVariants.{One};
ghost use Rattle.slice_rewrite.specs.SliceForms.{Ends, IsOpened, IsSliceForm, IsSliceRefusal, IsCopy, IsCopyIn, IsNoCopy, IsNoCopyIn, IsOtherColumn, StopsIn, sets_in};
ghost use Rattle.slice_rewrite.specs.Layers.{IsBuiltIn, IsNormalDataIn, layer_of};
ghost use Rattle.h264_types.specs.declared.layer.Layer.{Layer};

use crate::fault::RewriteFault;
use crate::opening::{OpenSlice, open_slice};
use crate::pick::{InitPick, Tries};
use crate::put::put_written;
use crate::slice::Written;
use crate::written_shape::written_shape;
use cabac_syntax::{CabacReader, CabacWriter};
use cavlc_syntax::{CavlcReader, CavlcWriter};
use exp_golomb::BitVec;
use h264_types::{Case, Layer, Mb, MbKind, SliceShape};
use init_table::InitTable;
use param_sets::Sets;
use slice_data::{SliceReader, SliceWriter};
use slice_header::write_header_under;
use std::alloc::Global;

/// Reads the payload of a slice unit with this header byte under the sets that stand, and writes it again for the wanted
/// layer, where its picture parameter set has the number `number`, and cabac_init_idc where it stands that of the pick. Where
/// the pick tries all, such a slice is written under each of the three numbers, and the pick chooses by the lengths of its units.
/// No list of macroblocks is kept.
///
/// Outside: the payload has no reading, whatever its first macroblocks hold. Stop: the least macroblock that can't be
/// written.
pub fn recode_slice<P: InitPick>(
    alloc: Global,
    sets: &Sets,
    init: &InitTable,
    header: u8,
    payload: &[u8],
    to: Layer,
    number: u8,
    pick: &mut P,
) -> Result<Written, RewriteFault>
    ensures ok { IfOk result (λ form. IsPickedForm P.tried P.step to init.now number sets.now header (bits_of payload.now) pick.old form.payload.items form.macroblocks pick.new) }
    ensures err { IfErr result (IsSliceRefusal to init.now sets.now header (bits_of payload.now)) }
    ensures tried { P.tried pick.new ≡ P.tried pick.old }
    ensures pick { OnErr result (pick.new ≡ pick.old) }
{
    open_slice(alloc, sets, header, payload, to)?.recode(alloc, init, to, number, pick)
}

impl OpenSlice<'_> {
    /// Reads the slice and writes it again for the layer that it was opened for, where its picture parameter set has the
    /// number `number`, as `recode_slice` does.
    pub fn recode<P: InitPick>(
        &self,
        alloc: Global,
        init: &InitTable,
        to: Layer,
        number: u8,
        pick: &mut P,
    ) -> Result<Written, RewriteFault>
        requires { (sets : SetMaps) × (header : ℕ) × (bits : List Bool) × IsOpened to sets header bits self.now }
        ensures ok { (sets : SetMaps) (header : ℕ) (bits : List Bool) → IsOpened to sets header bits self.now → IfOk result (λ form. IsPickedForm P.tried P.step to init.now number sets header bits pick.old form.payload.items form.macroblocks pick.new) }
        ensures err { (sets : SetMaps) (header : ℕ) (bits : List Bool) → IsOpened to sets header bits self.now → IfErr result (IsSliceRefusal to init.now sets header bits) }
        ensures tried { P.tried pick.new ≡ P.tried pick.old }
        ensures pick { OnErr result (pick.new ≡ pick.old) }
    {
        match pick.tries() {
            Tries::One(idc) => self.recode_with(alloc, init, to, number, idc),
            Tries::All if self.sends_idc(to) => self.recode_by(alloc, init, to, number, pick),
            Tries::All => self.recode_with(alloc, init, to, number, 0),
        }
    }

    // Reads the slice and writes it again, with this number as cabac_init_idc where it stands.
    pub(crate) fn recode_with(
        &self,
        alloc: Global,
        init: &InitTable,
        to: Layer,
        number: u8,
        idc: u8,
    ) -> Result<Written, RewriteFault>
        requires opened { (sets : SetMaps) × (header : ℕ) × (bits : List Bool) × IsOpened to sets header bits self.now }
        requires idc { idc < 3 }
        ensures ok { (sets : SetMaps) (header : ℕ) (bits : List Bool) → IsOpened to sets header bits self.now → IfOk result (λ form. IsSliceForm (whole_run to init.now (One idc)) number sets header bits form.payload.items form.macroblocks) }
        ensures err { (sets : SetMaps) (header : ℕ) (bits : List Bool) → IsOpened to sets header bits self.now → IfErr result (IsSliceRefusal to init.now sets header bits) }
    {
        if let Some(written) = self.as_it_stands(alloc, init, to, number, idc)? {
            return Ok(written);
        }
        self.write_anew(alloc, init, to, number, idc)
    }

    // Reads the slice and writes its header and its data again.
    fn write_anew(
        &self,
        alloc: Global,
        init: &InitTable,
        to: Layer,
        number: u8,
        idc: u8,
    ) -> Result<Written, RewriteFault>
        requires opened { (sets : SetMaps) × (header : ℕ) × (bits : List Bool) × IsOpened to sets header bits self.now }
        requires idc { idc < 3 }
        ensures ok { (sets : SetMaps) (header : ℕ) (bits : List Bool) → IsOpened to sets header bits self.now → IfOk result (λ form. IsSliceForm (whole_run to init.now (One idc)) number sets header bits form.payload.items form.macroblocks) }
        ensures err { (sets : SetMaps) (header : ℕ) (bits : List Bool) → IsOpened to sets header bits self.now → IfErr result (IsSliceRefusal to init.now sets header bits) }
    {
        let mut out = BitVec::new(alloc);
        write_header_under(&mut out, &self.active, &self.header, to, number, idc)?;
        let shape = written_shape(&self.shape, to, idc);
        let (out, macroblocks) = self.copy_to(alloc, init, to, shape, out)?;
        Ok(Written {
            payload: out.into_bytes(),
            macroblocks,
        })
    }

    // Reads the slice data, and writes them again for a layer in this shape, behind these bits.
    fn copy_to(
        &self,
        alloc: Global,
        init: &InitTable,
        to: Layer,
        shape: SliceShape,
        out: BitVec,
    ) -> Result<(BitVec, u32), RewriteFault>
        requires opened { (sets : SetMaps) × (header : ℕ) × (bits : List Bool) × IsOpened to sets header bits self.now }
        requires column { IsOtherColumn self.now.shape shape }
        requires shape { IsSliceShape shape }
        requires built { IsBuiltIn to shape }
        ensures ok { IfOk result (λ copy. IsCopyIn (layer_of (sets_in self.now)) init.now (IsNormalDataIn to init.now) to self.now.shape shape (length self.now.bits.taken) self.now.bits.left out copy.0 copy.1) }
        ensures err { IfErr result (IsNoCopyIn (layer_of (sets_in self.now)) init.now to self.now.shape (length self.now.bits.taken) self.now.bits.left) }
    {
        match to {
            Layer::Cavlc => {
                let writer = CavlcWriter::start(alloc, shape, out)?;
                self.copy_into(alloc, init, writer)
            }
            Layer::Cabac => {
                let writer = CabacWriter::start(alloc, shape, init, out)?;
                self.copy_into(alloc, init, writer)
            }
        }
    }

    // Reads the slice data in their layer, and writes them again.
    fn copy_into<W: SliceWriter>(
        &self,
        alloc: Global,
        init: &InitTable,
        writer: W,
    ) -> Result<(W::Sink, u32), RewriteFault>
        requires opened { (to : Layer) × (sets : SetMaps) × (header : ℕ) × (bits : List Bool) × IsOpened to sets header bits self.now }
        requires levels { StopsIn W.LAYER W.is_beyond }
        requires writes { (shape : SliceShape) × (before : List Bool) × IsOtherColumn self.now.shape shape × W.writes init.now writer shape before [] }
        ensures ok { (shape : SliceShape) (before : List Bool) → IsOtherColumn self.now.shape shape → W.writes init.now writer shape before [] →
            IfOk result (λ copy. IsCopyIn (layer_of (sets_in self.now)) init.now (W.is_data init.now) W.LAYER self.now.shape shape (length self.now.bits.taken) self.now.bits.left before (W.Sink.bits copy.0) copy.1) }
        ensures err { IfErr result (IsNoCopyIn (layer_of (sets_in self.now)) init.now W.LAYER self.now.shape (length self.now.bits.taken) self.now.bits.left) }
    {
        let bits = self.bits.again();
        match self.layer() {
            Layer::Cavlc => {
                let reader = CavlcReader::start(alloc, self.shape, bits)?;
                copy_data(self.shape, reader, writer)
            }
            Layer::Cabac => {
                let reader = CabacReader::start(alloc, self.shape, init, bits)?;
                copy_data(self.shape, reader, writer)
            }
        }
    }
}

// Reads slice data to their end and writes them again, macroblock by macroblock, of which none is kept: of any layer, for any
// layer. Behind one that can't be written the rest is read alone.
fn copy_data<R: SliceReader, W: SliceWriter>(
    shape: SliceShape,
    mut reader: R,
    mut writer: W,
) -> Result<(W::Sink, u32), RewriteFault>
    requires shape { IsSliceShape shape }
    requires levels { StopsIn W.LAYER W.is_beyond }
    requires stand { (init : InitTable) × (written_shape : SliceShape) × (pos : ℕ) × (left before : List Bool) × IsOtherColumn shape written_shape × R.stands init reader shape pos left [] × W.writes init writer written_shape before [] }
    ensures ok { (init : InitTable) (written_shape : SliceShape) (pos : ℕ) (left before : List Bool) → IsOtherColumn shape written_shape → R.stands init reader shape pos left [] → W.writes init writer written_shape before [] →
        IfOk result (λ copy. IsCopy R.has_data (R.is_data init) (W.is_data init) W.LAYER shape written_shape pos left before (W.Sink.bits copy.0) copy.1) }
    ensures err { (init : InitTable) (pos : ℕ) (left : List Bool) → R.stands init reader shape pos left [] → IfErr result (IsNoCopy R.has_data (R.is_data init) W.LAYER shape pos left) }
{
    let mut mb = Mb::without_elements(MbKind::Skip);
    let mut stop = None;
    for count in 0..shape.width * shape.height + 1 {
        let more = reader.next_into(&mut mb)?;
        if !more {
            return end_data(writer, stop, count);
        }
        if stop.is_none() {
            if let Some(case) = put_written(&mut writer, &mut mb)? {
                stop = Some((case, count));
            }
        }
    }
    unreachable!()
}

// The end of the slice data, behind so many macroblocks.
fn end_data<W: SliceWriter>(
    writer: W,
    stop: Option<(Case, u32)>,
    count: u32,
) -> Result<(W::Sink, u32), RewriteFault>
    ensures { (init : InitTable) → Ends (W.writes init) (W.is_data init) W.Sink.bits writer stop count result }
{
    match stop {
        Some((case, number)) => Err(RewriteFault::Stop(case, number)),
        None => {
            let out = writer.finish()?;
            Ok((out, count))
        }
    }
}
