ghost use Rattle.std.specs.Prelude.{[], IfOk};
ghost use Rattle.bit_texts.specs.Bits.{bits_of};
ghost use Rattle.exp_golomb.specs.Syntax.{outcome_of, Answers};
ghost use Rattle.param_sets.specs.Refusal.{pps_says};
ghost use Rattle.param_sets.specs.PictureParameterSet.{pps_head, pps_tail, pps_fields, pic_parameter_set, ReadsPps};
ghost use Rattle.param_sets.specs.PpsCodes.{IsPps};

use crate::elements::Elements;
use crate::fault::SetFault;
use crate::pps::Pps;
use crate::read_element::{flag, se, u, ue};
use crate::read_scaling::read_scaling_matrix;
use crate::read_trailing::read_trailing_bits;
use exp_golomb::{BitSource, SliceBits};
use std::alloc::Global;

fn read_head<B: BitSource>(alloc: Global, bits: &mut B) -> Result<Pps, SetFault>
    ensures { Answers pps_says (λ x. x) result (B.left bits.new) (outcome_of pps_head (B.left bits.old)) }
{
    let pic_parameter_set_id = ue(bits, 255)?;
    let seq_parameter_set_id = ue(bits, 31)?;
    let entropy_coding_mode_flag = flag(bits)?;
    let bottom_field_pic_order_in_frame_present_flag = flag(bits)?;
    let num_slice_groups_minus1 = ue(bits, u32::MAX - 1)?;
    if num_slice_groups_minus1 != 0 {
        return Err(SetFault::Profile);
    }
    let num_ref_idx_l0_default_active_minus1 = ue(bits, 31)?;
    let num_ref_idx_l1_default_active_minus1 = ue(bits, 31)?;
    let weighted_pred_flag = flag(bits)?;
    let weighted_bipred_idc = u(bits, 2)?;
    if weighted_bipred_idc > 2 {
        return Err(SetFault::NoReading);
    }
    let pic_init_qp_minus26 = se(bits, -26, 25)?;
    let pic_init_qs_minus26 = se(bits, -26, 25)?;
    let chroma_qp_index_offset = se(bits, -12, 12)?;
    let deblocking_filter_control_present_flag = flag(bits)?;
    let constrained_intra_pred_flag = flag(bits)?;
    let redundant_pic_cnt_present_flag = flag(bits)?;
    if redundant_pic_cnt_present_flag {
        return Err(SetFault::Profile);
    }
    Ok(Pps {
        pic_parameter_set_id,
        seq_parameter_set_id,
        entropy_coding_mode_flag,
        bottom_field_pic_order_in_frame_present_flag,
        num_slice_groups_minus1,
        num_ref_idx_l0_default_active_minus1,
        num_ref_idx_l1_default_active_minus1,
        weighted_pred_flag,
        weighted_bipred_idc,
        pic_init_qp_minus26,
        pic_init_qs_minus26,
        chroma_qp_index_offset,
        deblocking_filter_control_present_flag,
        constrained_intra_pred_flag,
        redundant_pic_cnt_present_flag,
        tail: false,
        transform_8x8_mode_flag: false,
        pic_scaling_matrix_present_flag: false,
        scaling_lists: Elements::empty(alloc),
        second_chroma_qp_index_offset: 0,
    })
}

#[tactic(auto, using(exp_golomb::proofs::Syntaxes::outcome_of_then), unfolding(exp_golomb::specs::Syntax::outcome_of, crate::specs::PictureParameterSet::pps_tail))]
fn read_tail<B: BitSource>(alloc: Global, bits: &mut B, pps: &mut Pps) -> Result<(), SetFault>
    ensures { Answers pps_says (λ done. pps.new) result (B.left bits.new) (outcome_of (pps_tail pps.old) (B.left bits.old)) }
{
    let transform_8x8_mode_flag = flag(bits)?;
    let pic_scaling_matrix_present_flag = flag(bits)?;
    let count = if transform_8x8_mode_flag { 8 } else { 6 };
    let scaling_lists = read_scaling_matrix(alloc, bits, pic_scaling_matrix_present_flag, count)?;
    let second_chroma_qp_index_offset = se(bits, -12, 12)?;
    pps.tail = true;
    pps.transform_8x8_mode_flag = transform_8x8_mode_flag;
    pps.pic_scaling_matrix_present_flag = pic_scaling_matrix_present_flag;
    pps.scaling_lists = scaling_lists;
    pps.second_chroma_qp_index_offset = second_chroma_qp_index_offset;
    Ok(())
}

#[tactic(auto, using(exp_golomb::proofs::Syntaxes::outcome_of_then), unfolding(exp_golomb::specs::Syntax::outcome_of, crate::specs::PictureParameterSet::pps_fields))]
fn read_fields<B: BitSource>(alloc: Global, bits: &mut B) -> Result<Pps, SetFault>
    ensures { Answers pps_says (λ x. x) result (B.left bits.new) (outcome_of pps_fields (B.left bits.old)) }
{
    let mut pps = read_head(alloc, bits)?;
    if bits.more_rbsp_data() {
        read_tail(alloc, bits, &mut pps)?;
    }
    Ok(pps)
}

#[tactic(auto, using(exp_golomb::proofs::Syntaxes::outcome_of_then), unfolding(exp_golomb::specs::Syntax::outcome_of, crate::specs::PictureParameterSet::pic_parameter_set))]
fn read_whole<B: BitSource>(alloc: Global, bits: &mut B) -> Result<Pps, SetFault>
    ensures { Answers pps_says (λ x. x) result [] (outcome_of pic_parameter_set (B.left bits.old)) }
{
    let pps = read_fields(alloc, bits)?;
    let _ends = read_trailing_bits(bits)?;
    Ok(pps)
}

/// The picture parameter set of a payload (7.3.2.2). More than one slice group or redundant pictures are `Profile`,
/// a text of no fields is `NoReading`, and nothing is `Limit`.
pub fn read_pps(alloc: Global, payload: &[u8]) -> Result<Pps, SetFault>
    ensures reads { ReadsPps result (bits_of payload.now) }
    ensures in_range { IfOk result (λ set. IsPps set) }
    // The same as a function of the bits.
    ensures exact { Answers pps_says (λ x. x) result [] (outcome_of pic_parameter_set (bits_of payload.now)) }
{
    let mut bits = SliceBits::new(payload);
    read_whole(alloc, &mut bits)
}
