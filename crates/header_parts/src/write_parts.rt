ghost use Rattle.std.specs.Prelude.{◌≡◌, ◌≤◌, ◌<◌, ◌++◌, [], ◌∷◌, true};
ghost use Rattle.std.specs.List.{flat_map, AllByRecursion};
ghost use Rattle.bit_texts.specs.Texts.{Appends, when_text};
ghost use Rattle.exp_golomb.specs.Code.{ue, se};
ghost use Rattle.exp_golomb.specs.Syntax.{joined};
ghost use Rattle.param_sets.specs.SpsCodes.{IsSps};
ghost use Rattle.header_parts.specs.PartsOf.{picture_of, order_of, filter_of};
ghost use Rattle.header_parts.specs.Picture.{picture_text, order_text, PictureFits, OrderFits, IsDelta};
ghost use Rattle.header_parts.specs.QuantisationAndFilter.{deblocking_text, DeblockingFits};
ghost use Rattle.header_parts.specs.ActiveSets.{active_view};

use crate::active_sets::ActiveSets;
use crate::header::Header;
use crate::read_parts::{
    frame_num_length, has_bottom_delta, has_filter_offsets, is_idr_unit, lsb_length,
};
use crate::write_element::{write_flag_when, write_se_when, write_u_when, write_ue_when};
use exp_golomb::{BitSink, write_se, write_u};
use param_sets::Sps;
use std::alloc::AllocError as Memory;

/// The elements that tell the picture.
pub fn write_picture_number<B: BitSink>(out: &mut B, sps: &Sps, h: &Header) -> Result<(), Memory>
    requires sps { IsSps sps.now }
    requires fits { PictureFits sps.now h.now.nal (picture_of h.now) }
    ensures { Appends (B.bits out.old) (B.bits out.new) (picture_text sps.now h.now.nal (picture_of h.now)) result }
{
    write_u(out, h.frame_num, frame_num_length(sps))?;
    write_flag_when(out, !sps.frame_mbs_only_flag, h.field_pic_flag)?;
    write_flag_when(out, h.field_pic_flag, h.bottom_field_flag)?;
    write_ue_when(out, is_idr_unit(h.nal), h.idr_pic_id)
}

/// Each value as se(v).
fn write_deltas<B: BitSink>(out: &mut B, deltas: &[i32]) -> Result<(), Memory>
    requires { AllByRecursion IsDelta deltas.now }
    ensures { Appends (B.bits out.old) (B.bits out.new) (flat_map se deltas.now) result }
{
    for delta in deltas {
        write_se(out, *delta)?;
    }
    Ok(())
}

/// The elements of the picture order count.
pub fn write_picture_order<B: BitSink>(
    out: &mut B,
    active: &ActiveSets<'_>,
    h: &Header,
) -> Result<(), Memory>
    requires sps { IsSps active.now.sps.now }
    requires fits { OrderFits (active_view active.now) h.now.field_pic_flag (order_of h.now) }
    ensures { Appends (B.bits out.old) (B.bits out.new) (order_text (active_view active.now) h.now.field_pic_flag (order_of h.now)) result }
{
    let has_lsb = active.sps.pic_order_cnt_type == 0;
    let has_bottom = has_bottom_delta(active, h.field_pic_flag);
    write_u_when(out, has_lsb, h.pic_order_cnt_lsb, lsb_length(active.sps))?;
    write_se_when(out, has_bottom, h.delta_pic_order_cnt_bottom)?;
    write_deltas(out, h.delta_pic_order_cnt.as_slice())
}

/// The elements of the deblocking filter.
pub fn write_deblocking<B: BitSink>(out: &mut B, present: bool, h: &Header) -> Result<(), Memory>
    requires { DeblockingFits present (filter_of h.now) }
    ensures { Appends (B.bits out.old) (B.bits out.new) (deblocking_text present (filter_of h.now)) result }
{
    let filters = has_filter_offsets(present, h.disable_deblocking_filter_idc);
    write_ue_when(out, present, h.disable_deblocking_filter_idc)?;
    write_se_when(out, filters, h.slice_alpha_c0_offset_div2)?;
    write_se_when(out, filters, h.slice_beta_offset_div2)
}
