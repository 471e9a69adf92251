// Slices that are written as they stand: no text is that of two headers or of two lists of macroblocks.
ghost use Rattle.std.specs.Prelude.{◌≡◌, ◌<◌, ◌++◌, true, false, [], ℕ, List, Bool, length, replicate, IfOk, IfErr, IfSome};
ghost use Rattle.bit_texts.specs.Bits.{bits_of};
ghost use Rattle.h264_types.specs.SliceShape.{IsSliceShape};
ghost use Rattle.init_table.specs.declared.table.InitTable.{InitTable};
ghost use Rattle.param_sets.specs.PpsCodes.{mode_flag_of};
ghost use Rattle.param_sets.specs.Sets.{SetMaps};
ghost use Rattle.slice_header.specs.HeaderCodes.{header_in};
ghost use Rattle.slice_rewrite.specs.Layers.{HasDataIn, IsDataIn, layer_of};
ghost use Rattle.slice_rewrite.specs.Options.{whole_run};
ghost use Rattle.slice_rewrite.specs.SliceForms.{IsNoDataRead, IsOpened, IsSliceForm, IsSliceRefusal, sets_in};
ghost use Rattle.slice_rewrite.specs.Standing.{AreDataAsWritten, IsAsWritten, IsHeaderAsWritten};
ghost use Rattle.slice_rewrite.specs.declared.pick.Tries.TheVariants.{One};

use crate::fault::RewriteFault;
use crate::opening::OpenSlice;
use crate::put::is_ref0_in;
use crate::slice::Written;
use cabac_syntax::CabacReader;
use cavlc_syntax::CavlcReader;
use h264_types::{Layer, Mb, MbKind, SliceShape};
use init_table::InitTable;
use pattern_fix::is_normal;
use slice_data::SliceReader;
use std::alloc::Global;

impl OpenSlice<'_> {
    // The slice as it stands, where that is what is written for it. None: it has to be written anew, or it is one of the few of
    // which that isn't seen.
    pub(crate) fn as_it_stands(
        &self,
        alloc: Global,
        init: &InitTable,
        to: Layer,
        number: u8,
        idc: u8,
    ) -> Result<Option<Written>, RewriteFault>
        requires opened { (sets : SetMaps) × (header : ℕ) × (bits : List Bool) × IsOpened to sets header bits self.now }
        requires idc { idc < 3 }
        ensures ok { (sets : SetMaps) (header : ℕ) (bits : List Bool) → IsOpened to sets header bits self.now → IfOk result (λ found. IfSome found (λ form. IsSliceForm (whole_run to init.now (One idc)) number sets header bits form.payload.items form.macroblocks)) }
        ensures err { (sets : SetMaps) (header : ℕ) (bits : List Bool) → IsOpened to sets header bits self.now → IfErr result (IsSliceRefusal to init.now sets header bits) }
    {
        let bytes = self.bits.bytes();
        if !self.has_header_as_written(to, number, idc) || !ends_in_data(bytes) {
            return Ok(None);
        }
        let Some(macroblocks) = self.count_as_written(alloc, init, to)? else {
            return Ok(None);
        };
        let mut payload = Vec::with_capacity(alloc, bytes.len())?;
        payload.extend_from_slice(bytes)?;
        Ok(Some(Written {
            payload,
            macroblocks,
        }))
    }

    // Whether the header is written as it stands.
    fn has_header_as_written(&self, to: Layer, number: u8, idc: u8) -> bool
        ensures { (sets : SetMaps) (header : ℕ) (bits : List Bool) → IsOpened to sets header bits self.now → result ≡ true → IsHeaderAsWritten to number idc self.now }
    {
        if self.active.pps.entropy_coding_mode_flag != mode_flag(to) {
            return false;
        }
        if self.header.pic_parameter_set_id != u32::from(number) {
            return false;
        }
        self.header.cabac_init_idc == u32::from(self.idc_in(to, idc))
    }

    // cabac_init_idc as it is written for a layer: 0 where it doesn't stand.
    fn idc_in(&self, to: Layer, idc: u8) -> u8
        ensures { (sets : SetMaps) (header : ℕ) (bits : List Bool) → IsOpened to sets header bits self.now → (number : ℕ) → result ≡ (header_in to number idc self.now.header).cabac_init_idc }
    {
        if self.sends_idc(to) { idc } else { 0 }
    }

    // Reads the slice data, and answers how many macroblocks they have where each is in its written form.
    fn count_as_written(
        &self,
        alloc: Global,
        init: &InitTable,
        to: Layer,
    ) -> Result<Option<u32>, RewriteFault>
        requires opened { (sets : SetMaps) × (header : ℕ) × (bits : List Bool) × IsOpened to sets header bits self.now }
        ensures ok { IfOk result (λ found. IfSome found (AreDataAsWritten (HasDataIn (layer_of (sets_in self.now))) (IsDataIn (layer_of (sets_in self.now)) init.now) to self.now.shape (length self.now.bits.taken) self.now.bits.left)) }
        ensures err { IfErr result (IsNoDataRead (HasDataIn (layer_of (sets_in self.now))) (IsDataIn (layer_of (sets_in self.now)) init.now) self.now.shape (length self.now.bits.taken) self.now.bits.left) }
    {
        let bits = self.bits.again();
        match self.layer() {
            Layer::Cavlc => {
                let reader = CavlcReader::start(alloc, self.shape, bits)?;
                count_in(self.shape, to, reader)
            }
            Layer::Cabac => {
                let reader = CabacReader::start(alloc, self.shape, init, bits)?;
                count_in(self.shape, to, reader)
            }
        }
    }
}

// entropy_coding_mode_flag of a layer (7.4.2.2).
fn mode_flag(to: Layer) -> bool
    ensures { result ≡ mode_flag_of to }
{
    matches!(to, Layer::Cabac)
}

// Whether the last byte isn't 0: then no cabac_zero_word stands at the end (7.3.2.10).
fn ends_in_data(bytes: &[u8]) -> bool
    ensures { result ≡ true → (front : List Bool) → bits_of bytes.now ≡ front ++ replicate 16 false → ⊥ }
{
    match bytes.last() {
        Some(last) => *last != 0,
        None => false,
    }
}

// Reads slice data to their end, or up to a macroblock that isn't in its written form.
fn count_in<R: SliceReader>(
    shape: SliceShape,
    to: Layer,
    mut reader: R,
) -> Result<Option<u32>, RewriteFault>
    requires shape { IsSliceShape shape }
    requires reads { (init : InitTable) × (pos : ℕ) × (left : List Bool) × R.stands init reader shape pos left [] }
    ensures ok { (init : InitTable) (pos : ℕ) (left : List Bool) → R.stands init reader shape pos left [] → IfOk result (λ found. IfSome found (AreDataAsWritten R.has_data (R.is_data init) to shape pos left)) }
    ensures err { (init : InitTable) (pos : ℕ) (left : List Bool) → R.stands init reader shape pos left [] → IfErr result (IsNoDataRead R.has_data (R.is_data init) shape pos left) }
{
    let mut mb = Mb::without_elements(MbKind::Skip);
    for count in 0..shape.width * shape.height + 1 {
        let more = reader.next_into(&mut mb)?;
        if !more {
            return Ok(Some(count));
        }
        if !is_as_written(to, &mb) {
            return Ok(None);
        }
    }
    unreachable!()
}

// Whether a macroblock is in its written form, and its data have one form.
fn is_as_written(to: Layer, mb: &Mb) -> bool
    ensures { result ≡ true → IsAsWritten to mb.now }
{
    is_normal(mb) && mb.ref0 == is_ref0_in(to, mb) && !(to == Layer::Cabac && mb.kind.is_i_pcm())
}
