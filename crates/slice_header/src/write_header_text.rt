ghost use Rattle.std.specs.Prelude.{◌≡◌, ◌≤◌, ◌<◌, ◌&&◌, not, [], ◌∷◌, if◌then◌else◌};
ghost use Rattle.bit_texts.specs.Texts.{Appends};
ghost use Rattle.exp_golomb.specs.Code.{ue};
ghost use Rattle.exp_golomb.specs.Syntax.{joined};
ghost use Rattle.param_sets.specs.PpsCodes.{IsPps, mode_flag_of};
ghost use Rattle.param_sets.specs.SpsCodes.{IsSps};
ghost use Rattle.slice_header.specs.HeaderCodes.{header_text, header_in, active_in, HeaderFits, Names, IsUnder};
ghost use Rattle.header_parts.specs.ActiveSets.{Active, active_view};
ghost use Rattle.header_parts.specs.SliceTypes.{is_i};

use exp_golomb::{BitSink, write_se, write_ue};
use h264_types::Layer;
use header_parts::write_element::write_ue_when;
use header_parts::{
    ActiveSets, Header, is_i_slice, write_active_references, write_deblocking, write_marking,
    write_picture_number, write_picture_order, write_reference_lists,
};
use param_sets::Sets;
use std::alloc::AllocError as Memory;

/// The sets that a header names.
pub fn sets_of<'a>(sets: &'a Sets, h: &Header) -> ActiveSets<'a>
    requires { IsUnder sets.now h.now }
    ensures names { Names sets.now h.now.pic_parameter_set_id (active_view result) }
    ensures fits { HeaderFits (active_view result) h.now }
    ensures in_range { IsSps result.sps.now × IsPps result.pps.now }
{
    let pic_parameter_set_id = h.pic_parameter_set_id;
    let Some(pps) = sets.pps(pic_parameter_set_id as u8) else {
        unreachable!();
    };
    let seq_parameter_set_id = pps.seq_parameter_set_id;
    let Some(sps) = sets.sps(seq_parameter_set_id as u8) else {
        unreachable!();
    };
    ActiveSets { sps, pps }
}

/// Whether cabac_init_idc stands in a layer.
fn needs_init(layer: Layer, slice_type: u32) -> bool
    ensures { result ≡ (mode_flag_of layer && not (is_i slice_type)) }
{
    match layer {
        Layer::Cavlc => false,
        Layer::Cabac => !is_i_slice(slice_type),
    }
}

/// The elements up to pic_parameter_set_id.
fn write_start<B: BitSink>(out: &mut B, h: &Header, number: u8) -> Result<(), Memory>
    requires first { h.now.first_mb_in_slice ≤ 139263 }
    requires slice_type { h.now.slice_type ≤ 9 }
    ensures { Appends (B.bits out.old) (B.bits out.new) (joined (ue h.now.first_mb_in_slice ∷ ue h.now.slice_type ∷ ue number ∷ [])) result }
{
    write_ue(out, h.first_mb_in_slice)?;
    write_ue(out, h.slice_type)?;
    write_ue(out, u32::from(number))
}

/// Appends the text of a slice header (7.3.3) as it stands in a layer, naming the picture parameter set of this number;
/// where cabac_init_idc stands, it is `idc`. These are the sets that the header names. Want of memory leaves a front of
/// the text appended.
#[tactic(auto, unfolding(crate::specs::HeaderCodes::header_text))]
pub fn write_header_under<B: BitSink>(
    out: &mut B,
    active: &ActiveSets<'_>,
    h: &Header,
    layer: Layer,
    number: u8,
    idc: u8,
) -> Result<(), Memory>
    requires sets { IsSps active.now.sps.now }
    requires fits { HeaderFits (active_view active.now) h.now }
    requires idc { idc < 3 }
    ensures { Appends (B.bits out.old) (B.bits out.new) (header_text (active_in layer number (active_view active.now)) (header_in layer number idc h.now)) result }
{
    write_start(out, h, number)?;
    write_picture_number(out, active.sps, h)?;
    write_picture_order(out, active, h)?;
    write_active_references(out, h)?;
    write_reference_lists(out, h)?;
    write_marking(out, h)?;
    write_ue_when(out, needs_init(layer, h.slice_type), u32::from(idc))?;
    write_se(out, h.slice_qp_delta)?;
    write_deblocking(out, active.pps.deblocking_filter_control_present_flag, h)
}

/// The same, where the sets that the header names are among those that stand.
pub fn write_header<B: BitSink>(
    out: &mut B,
    sets: &Sets,
    h: &Header,
    layer: Layer,
    number: u8,
    idc: u8,
) -> Result<(), Memory>
    requires under { IsUnder sets.now h.now }
    requires idc { idc < 3 }
    ensures { (active : Active) → Names sets.now h.now.pic_parameter_set_id active → Appends (B.bits out.old) (B.bits out.new) (header_text (active_in layer number active) (header_in layer number idc h.now)) result }
{
    let active = sets_of(sets, h);
    write_header_under(out, &active, h, layer, number, idc)
}
