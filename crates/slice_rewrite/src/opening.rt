// A slice whose header was read, before its macroblocks are.
ghost use Rattle.std.specs.Prelude.{◌≡◌, ◌≤◌, ℕ, List, Bool, IfOk, IfErr};
ghost use Rattle.bit_texts.specs.Bits.{bits_of};
ghost use Rattle.h264_types.specs.declared.macroblock.Mb.{Mb};
ghost use Rattle.header_parts.specs.ActiveSets.{Active, active_view};
ghost use Rattle.header_parts.specs.declared.header.Header.{Header};
ghost use Rattle.slice_header.specs.Shape.{shape_of};
ghost use Rattle.slice_rewrite.specs.Items.{is_unbuilt};
ghost use Rattle.slice_rewrite.specs.Layers.{layer_of};
ghost use Rattle.slice_rewrite.specs.Periods.{idr_of};
ghost use Rattle.slice_rewrite.specs.SliceForms.{IsOpened, IsNotOpened, coded, sets_in};

use crate::fault::RewriteFault;
use exp_golomb::SliceBits;
use h264_types::{Layer, SliceShape, Why};
use param_sets::Sets;
use slice_header::{ActiveSets, Header, read_header_with_sets, shape_under};
use std::alloc::Global;

/// A slice whose header was read: the header, the sets that it names, what its macroblocks rest on beside one another,
/// and the bits behind the header.
#[derive(Drop)]
pub struct OpenSlice<'a> {
    pub(crate) header: Header,
    pub(crate) active: ActiveSets<'a>,
    pub(crate) shape: SliceShape,
    pub(crate) bits: SliceBits<'a>,
}

impl OpenSlice<'_> {
    /// pic_parameter_set_id, the number of the picture parameter set that the slice names.
    pub fn pps_number(&self) -> u8
        requires { self.now.header.pic_parameter_set_id ≤ 255 }
        ensures { result ≡ self.now.header.pic_parameter_set_id }
    {
        self.header.pic_parameter_set_id as u8
    }

    /// idr_pic_id, where the slice is one of an IDR picture (7.4.3).
    pub fn idr_pic_id(&self) -> Option<u32>
        ensures { (active : Active) (mbs : List Mb) → result ≡ idr_of (coded active self.now.header mbs) }
    {
        if self.header.nal % 32 == 5 {
            Some(self.header.idr_pic_id)
        } else {
            None
        }
    }

    /// The entropy layer of the slice (7.4.2.2).
    pub(crate) fn layer(&self) -> Layer
        ensures { result ≡ layer_of (sets_in self.now) }
    {
        if self.active.pps.entropy_coding_mode_flag {
            Layer::Cabac
        } else {
            Layer::Cavlc
        }
    }
}

/// Reads the header of the slice unit with this header byte and this payload, under the sets that stand, so that it can
/// be written for the wanted layer.
///
/// Outside: the payload has no reading, whatever stands behind its header. Stop never comes.
pub fn open_slice<'a>(
    alloc: Global,
    sets: &'a Sets,
    header: u8,
    payload: &'a [u8],
    to: Layer,
) -> Result<OpenSlice<'a>, RewriteFault>
    ensures ok { IfOk result (λ opened. IsOpened to sets.now header (bits_of payload.now) opened) }
    ensures err { IfErr result (IsNotOpened to sets.now header (bits_of payload.now)) }
{
    let mut bits = SliceBits::new(payload);
    let (header, active) = read_header_with_sets(alloc, sets, header, &mut bits)?;
    let shape = shape_under(&active, &header);
    if is_unbuilt(to, &active, &shape) {
        return Err(RewriteFault::Outside(Why::Unbuilt));
    }
    Ok(OpenSlice {
        header,
        active,
        shape,
        bits,
    })
}

// Whether a slice of this shape is refused as not built: one of an MBAFF frame, where it is in CABAC or CABAC is wanted.
fn is_unbuilt(to: Layer, active: &ActiveSets<'_>, shape: &SliceShape) -> bool
    ensures { (h : Header) → shape.now ≡ shape_of (active_view active.now) h → result ≡ is_unbuilt to (active_view active.now) h }
{
    shape.mbaff && (matches!(to, Layer::Cabac) || active.pps.entropy_coding_mode_flag)
}
