ghost use Rattle.std.specs.Prelude.{◌≡◌, OnOk, IfOk};
ghost use Rattle.bit_texts.specs.Bits.{bits_of};
ghost use Rattle.bit_texts.specs.Texts.{Appended};
ghost use Rattle.param_sets.specs.PpsCodes.{pps_head_text, pps_tail_text, pps_fields_text, pps_text, pps_in, mode_flag_of, PpsHeadFits, PpsTailFits, PpsFits};

use crate::pps::Pps;
use crate::write_values::{write_scaling_lists, write_trailing_bits};
use exp_golomb::{BitSink, BitVec, write_se, write_u, write_ue};
use h264_types::Layer;
use std::alloc::{AllocError as Memory, Global};

fn write_head<B: BitSink>(out: &mut B, pps: &Pps, layer: Layer, number: u8) -> Result<(), Memory>
    requires { PpsHeadFits pps.now }
    ensures { OnOk result (Appended (B.bits out.old) (B.bits out.new) (pps_head_text (pps_in layer number pps.now))) }
{
    write_ue(out, u32::from(number))?;
    write_ue(out, pps.seq_parameter_set_id)?;
    out.put(is_cabac(layer))?;
    out.put(pps.bottom_field_pic_order_in_frame_present_flag)?;
    write_ue(out, pps.num_slice_groups_minus1)?;
    write_ue(out, pps.num_ref_idx_l0_default_active_minus1)?;
    write_ue(out, pps.num_ref_idx_l1_default_active_minus1)?;
    out.put(pps.weighted_pred_flag)?;
    write_u(out, pps.weighted_bipred_idc, 2)?;
    write_se(out, pps.pic_init_qp_minus26)?;
    write_se(out, pps.pic_init_qs_minus26)?;
    write_se(out, pps.chroma_qp_index_offset)?;
    out.put(pps.deblocking_filter_control_present_flag)?;
    out.put(pps.constrained_intra_pred_flag)?;
    out.put(pps.redundant_pic_cnt_present_flag)?;
    Ok(())
}

/// entropy_coding_mode_flag.
fn is_cabac(layer: Layer) -> bool
    ensures { result ≡ mode_flag_of layer }
{
    match layer {
        Layer::Cavlc => false,
        Layer::Cabac => true,
    }
}

fn write_tail<B: BitSink>(out: &mut B, pps: &Pps) -> Result<(), Memory>
    requires { PpsTailFits pps.now }
    ensures { OnOk result (Appended (B.bits out.old) (B.bits out.new) (pps_tail_text pps.now)) }
{
    out.put(pps.transform_8x8_mode_flag)?;
    out.put(pps.pic_scaling_matrix_present_flag)?;
    write_scaling_lists(out, pps.scaling_lists.as_slice())?;
    write_se(out, pps.second_chroma_qp_index_offset)?;
    Ok(())
}

#[tactic(auto, unfolding(crate::specs::PpsCodes::pps_fields_text))]
fn write_fields<B: BitSink>(out: &mut B, pps: &Pps, layer: Layer, number: u8) -> Result<(), Memory>
    requires { PpsFits pps.now }
    ensures { OnOk result (Appended (B.bits out.old) (B.bits out.new) (pps_fields_text (pps_in layer number pps.now))) }
{
    write_head(out, pps, layer, number)?;
    if pps.tail {
        return write_tail(out, pps);
    }
    Ok(())
}

/// The payload of a picture parameter set (7.3.2.2), with the entropy_coding_mode_flag of a layer and under a number.
pub fn write_pps(alloc: Global, pps: &Pps, layer: Layer, number: u8) -> Result<Vec<u8>, Memory>
    requires { PpsFits pps.now }
    ensures { IfOk result (λ payload. bits_of payload.items ≡ pps_text (pps_in layer number pps.now)) }
{
    let mut out = BitVec::new(alloc);
    write_fields(&mut out, pps, layer, number)?;
    write_trailing_bits(&mut out)?;
    Ok(out.into_bytes())
}
