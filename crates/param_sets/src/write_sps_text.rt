ghost use Rattle.std.specs.Prelude.{◌≡◌, OnOk, IfOk};
ghost use Rattle.bit_texts.specs.Bits.{bits_of};
ghost use Rattle.bit_texts.specs.Texts.{Appended};
ghost use Rattle.param_sets.specs.SpsCodes.{sps_head_text, sps_high_text, sps_cycle_text, sps_count_text, sps_order_text, sps_size_text, sps_profile_text, sps_fields_text, sps_text, SpsHeadFits, SpsHighFits, SpsCycleFits, SpsOrderFits, SpsSizeFits, SpsFits};

use crate::sps::Sps;
use crate::write_values::{
    write_bits, write_flag_when, write_scaling_lists, write_trailing_bits, write_values,
};
use exp_golomb::{BitSink, BitVec, write_se, write_u, write_ue};
use std::alloc::{AllocError as Memory, Global};

fn write_head<B: BitSink>(out: &mut B, sps: &Sps) -> Result<(), Memory>
    requires { SpsHeadFits sps.now }
    ensures { OnOk result (Appended (B.bits out.old) (B.bits out.new) (sps_head_text sps.now)) }
{
    write_u(out, sps.profile_idc, 8)?;
    out.put(sps.constraint_set0_flag)?;
    out.put(sps.constraint_set1_flag)?;
    out.put(sps.constraint_set2_flag)?;
    out.put(sps.constraint_set3_flag)?;
    out.put(sps.constraint_set4_flag)?;
    out.put(sps.constraint_set5_flag)?;
    write_u(out, sps.reserved_zero_2bits, 2)?;
    write_u(out, sps.level_idc, 8)?;
    write_ue(out, sps.seq_parameter_set_id)?;
    Ok(())
}

/// The elements of profile 100 alone.
fn write_high<B: BitSink>(out: &mut B, sps: &Sps) -> Result<(), Memory>
    requires { SpsHighFits sps.now }
    ensures { OnOk result (Appended (B.bits out.old) (B.bits out.new) (sps_high_text sps.now)) }
{
    write_ue(out, sps.chroma_format_idc)?;
    write_ue(out, sps.bit_depth_luma_minus8)?;
    write_ue(out, sps.bit_depth_chroma_minus8)?;
    out.put(sps.qpprime_y_zero_transform_bypass_flag)?;
    out.put(sps.seq_scaling_matrix_present_flag)?;
    write_scaling_lists(out, sps.scaling_lists.as_slice())?;
    Ok(())
}

/// The elements of pic_order_cnt_type 1 alone.
fn write_cycle<B: BitSink>(out: &mut B, sps: &Sps) -> Result<(), Memory>
    requires { SpsCycleFits sps.now }
    ensures { OnOk result (Appended (B.bits out.old) (B.bits out.new) (sps_cycle_text sps.now)) }
{
    out.put(sps.delta_pic_order_always_zero_flag)?;
    write_se(out, sps.offset_for_non_ref_pic)?;
    write_se(out, sps.offset_for_top_to_bottom_field)?;
    write_ue(out, sps.num_ref_frames_in_pic_order_cnt_cycle)?;
    write_values(out, sps.offset_for_ref_frame.as_slice())?;
    Ok(())
}

/// What pic_order_cnt_type asks for.
fn write_count<B: BitSink>(out: &mut B, sps: &Sps) -> Result<(), Memory>
    requires { SpsOrderFits sps.now }
    ensures { OnOk result (Appended (B.bits out.old) (B.bits out.new) (sps_count_text sps.now)) }
{
    match sps.pic_order_cnt_type {
        0 => write_ue(out, sps.log2_max_pic_order_cnt_lsb_minus4),
        1 => write_cycle(out, sps),
        _ => Ok(()),
    }
}

fn write_order<B: BitSink>(out: &mut B, sps: &Sps) -> Result<(), Memory>
    requires { SpsOrderFits sps.now }
    ensures { OnOk result (Appended (B.bits out.old) (B.bits out.new) (sps_order_text sps.now)) }
{
    write_ue(out, sps.log2_max_frame_num_minus4)?;
    write_ue(out, sps.pic_order_cnt_type)?;
    write_count(out, sps)?;
    Ok(())
}

fn write_size<B: BitSink>(out: &mut B, sps: &Sps) -> Result<(), Memory>
    requires { SpsSizeFits sps.now }
    ensures { OnOk result (Appended (B.bits out.old) (B.bits out.new) (sps_size_text sps.now)) }
{
    write_ue(out, sps.max_num_ref_frames)?;
    out.put(sps.gaps_in_frame_num_value_allowed_flag)?;
    write_ue(out, sps.pic_width_in_mbs_minus1)?;
    write_ue(out, sps.pic_height_in_map_units_minus1)?;
    out.put(sps.frame_mbs_only_flag)?;
    write_flag_when(
        out,
        !sps.frame_mbs_only_flag,
        sps.mb_adaptive_frame_field_flag,
    )?;
    out.put(sps.direct_8x8_inference_flag)?;
    Ok(())
}

fn write_profile<B: BitSink>(out: &mut B, sps: &Sps) -> Result<(), Memory>
    requires { SpsFits sps.now }
    ensures { OnOk result (Appended (B.bits out.old) (B.bits out.new) (sps_profile_text sps.now)) }
{
    write_head(out, sps)?;
    if sps.profile_idc == 100 {
        return write_high(out, sps);
    }
    Ok(())
}

#[tactic(auto, unfolding(crate::specs::SpsCodes::sps_fields_text))]
fn write_fields<B: BitSink>(out: &mut B, sps: &Sps) -> Result<(), Memory>
    requires { SpsFits sps.now }
    ensures { OnOk result (Appended (B.bits out.old) (B.bits out.new) (sps_fields_text sps.now)) }
{
    write_profile(out, sps)?;
    write_order(out, sps)?;
    write_size(out, sps)?;
    write_bits(out, sps.rest.as_slice())?;
    Ok(())
}

/// The payload of a sequence parameter set (7.3.2.1), its fields as they are.
pub fn write_sps(alloc: Global, sps: &Sps) -> Result<Vec<u8>, Memory>
    requires { SpsFits sps.now }
    ensures { IfOk result (λ payload. bits_of payload.items ≡ sps_text sps.now) }
{
    let mut out = BitVec::new(alloc);
    write_fields(&mut out, sps)?;
    write_trailing_bits(&mut out)?;
    Ok(out.into_bytes())
}
