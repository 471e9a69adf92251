ghost use Rattle.std.specs.Prelude.{◌≡◌, [], IfOk};
ghost use Rattle.bit_texts.specs.Bits.{bits_of};
ghost use Rattle.exp_golomb.specs.Syntax.{outcome_of, Answers};
ghost use Rattle.param_sets.specs.Refusal.{sps_says, part_says};
ghost use Rattle.param_sets.specs.SequenceParameterSet.{offsets, sps_head, sps_high, sps_order, sps_order_lsb, sps_order_cycle, sps_size, sps_profile, sps_fields, is_profile, is_above_limits, seq_parameter_set, ReadsSps};
ghost use Rattle.param_sets.specs.SpsCodes.{IsSps};

use crate::elements::Elements;
use crate::fault::SetFault;
use crate::read_element::{flag, flag_when, se, u, ue};
use crate::read_scaling::read_scaling_matrix;
use crate::read_trailing::read_unread_bits;
use crate::sps::Sps;
use exp_golomb::{BitSource, SliceBits};
use std::alloc::Global;

/// Whether a profile is Main or High.
fn is_known_profile(profile_idc: u32) -> bool
    ensures { result ≡ is_profile profile_idc }
{
    profile_idc == 77 || profile_idc == 100
}

fn read_head<B: BitSource>(alloc: Global, bits: &mut B) -> Result<Sps, SetFault>
    ensures { Answers sps_says (λ x. x) result (B.left bits.new) (outcome_of sps_head (B.left bits.old)) }
{
    let profile_idc = u(bits, 8)?;
    let known = is_known_profile(profile_idc);
    if !known {
        return Err(SetFault::Profile);
    }
    let constraint_set0_flag = flag(bits)?;
    let constraint_set1_flag = flag(bits)?;
    let constraint_set2_flag = flag(bits)?;
    let constraint_set3_flag = flag(bits)?;
    let constraint_set4_flag = flag(bits)?;
    let constraint_set5_flag = flag(bits)?;
    let reserved_zero_2bits = u(bits, 2)?;
    let level_idc = u(bits, 8)?;
    let seq_parameter_set_id = ue(bits, 31)?;
    Ok(Sps {
        profile_idc,
        constraint_set0_flag,
        constraint_set1_flag,
        constraint_set2_flag,
        constraint_set3_flag,
        constraint_set4_flag,
        constraint_set5_flag,
        reserved_zero_2bits,
        level_idc,
        seq_parameter_set_id,
        chroma_format_idc: 0,
        bit_depth_luma_minus8: 0,
        bit_depth_chroma_minus8: 0,
        qpprime_y_zero_transform_bypass_flag: false,
        seq_scaling_matrix_present_flag: false,
        scaling_lists: Elements::empty(alloc),
        log2_max_frame_num_minus4: 0,
        pic_order_cnt_type: 0,
        log2_max_pic_order_cnt_lsb_minus4: 0,
        delta_pic_order_always_zero_flag: false,
        offset_for_non_ref_pic: 0,
        offset_for_top_to_bottom_field: 0,
        num_ref_frames_in_pic_order_cnt_cycle: 0,
        offset_for_ref_frame: Elements::empty(alloc),
        max_num_ref_frames: 0,
        gaps_in_frame_num_value_allowed_flag: false,
        pic_width_in_mbs_minus1: 0,
        pic_height_in_map_units_minus1: 0,
        frame_mbs_only_flag: false,
        mb_adaptive_frame_field_flag: false,
        direct_8x8_inference_flag: false,
        rest: Elements::empty(alloc),
    })
}

fn read_high<B: BitSource>(alloc: Global, bits: &mut B, sps: &mut Sps) -> Result<(), SetFault>
    ensures { Answers sps_says (λ done. sps.new) result (B.left bits.new) (outcome_of (sps_high sps.old) (B.left bits.old)) }
{
    let chroma_format_idc = ue(bits, u32::MAX - 1)?;
    if chroma_format_idc != 1 {
        return Err(SetFault::Profile);
    }
    let bit_depth_luma_minus8 = ue(bits, u32::MAX - 1)?;
    if bit_depth_luma_minus8 != 0 {
        return Err(SetFault::Profile);
    }
    let bit_depth_chroma_minus8 = ue(bits, u32::MAX - 1)?;
    if bit_depth_chroma_minus8 != 0 {
        return Err(SetFault::Profile);
    }
    let qpprime_y_zero_transform_bypass_flag = flag(bits)?;
    if qpprime_y_zero_transform_bypass_flag {
        return Err(SetFault::Profile);
    }
    let seq_scaling_matrix_present_flag = flag(bits)?;
    let scaling_lists = read_scaling_matrix(alloc, bits, seq_scaling_matrix_present_flag, 8)?;
    sps.chroma_format_idc = chroma_format_idc;
    sps.bit_depth_luma_minus8 = bit_depth_luma_minus8;
    sps.bit_depth_chroma_minus8 = bit_depth_chroma_minus8;
    sps.qpprime_y_zero_transform_bypass_flag = qpprime_y_zero_transform_bypass_flag;
    sps.seq_scaling_matrix_present_flag = seq_scaling_matrix_present_flag;
    sps.scaling_lists = scaling_lists;
    Ok(())
}

#[tactic(auto, unfolding(exp_golomb::specs::Syntax::outcome_of, crate::specs::SequenceParameterSet::sps_order_lsb))]
fn read_order_lsb<B: BitSource>(bits: &mut B, sps: &mut Sps) -> Result<(), SetFault>
    ensures { Answers sps_says (λ done. sps.new) result (B.left bits.new) (outcome_of (sps_order_lsb sps.old) (B.left bits.old)) }
{
    let log2_max_pic_order_cnt_lsb_minus4 = ue(bits, 12)?;
    sps.log2_max_pic_order_cnt_lsb_minus4 = log2_max_pic_order_cnt_lsb_minus4;
    Ok(())
}

fn read_offsets<B: BitSource>(
    alloc: Global,
    bits: &mut B,
    count: u32,
) -> Result<Elements<i32>, SetFault>
    ensures { Answers part_says (λ x. x) result (B.left bits.new) (outcome_of (offsets count) (B.left bits.old)) }
{
    let mut offsets = Vec::new(alloc);
    for _place in 0..count {
        let offset = se(bits, -i32::MAX, i32::MAX)?;
        offsets.push(offset)?;
    }
    Ok(Elements::new(offsets))
}

fn read_order_cycle<B: BitSource>(
    alloc: Global,
    bits: &mut B,
    sps: &mut Sps,
) -> Result<(), SetFault>
    ensures { Answers sps_says (λ done. sps.new) result (B.left bits.new) (outcome_of (sps_order_cycle sps.old) (B.left bits.old)) }
{
    let delta_pic_order_always_zero_flag = flag(bits)?;
    let offset_for_non_ref_pic = se(bits, -i32::MAX, i32::MAX)?;
    let offset_for_top_to_bottom_field = se(bits, -i32::MAX, i32::MAX)?;
    let num_ref_frames_in_pic_order_cnt_cycle = ue(bits, 255)?;
    let offset_for_ref_frame = read_offsets(alloc, bits, num_ref_frames_in_pic_order_cnt_cycle)?;
    sps.delta_pic_order_always_zero_flag = delta_pic_order_always_zero_flag;
    sps.offset_for_non_ref_pic = offset_for_non_ref_pic;
    sps.offset_for_top_to_bottom_field = offset_for_top_to_bottom_field;
    sps.num_ref_frames_in_pic_order_cnt_cycle = num_ref_frames_in_pic_order_cnt_cycle;
    sps.offset_for_ref_frame = offset_for_ref_frame;
    Ok(())
}

#[tactic(auto, using(exp_golomb::proofs::Syntaxes::outcome_of_then), unfolding(exp_golomb::specs::Syntax::outcome_of, crate::specs::SequenceParameterSet::sps_order, crate::specs::SequenceParameterSet::sps_order_of))]
fn read_order<B: BitSource>(alloc: Global, bits: &mut B, sps: &mut Sps) -> Result<(), SetFault>
    ensures { Answers sps_says (λ done. sps.new) result (B.left bits.new) (outcome_of (sps_order sps.old) (B.left bits.old)) }
{
    let log2_max_frame_num_minus4 = ue(bits, 12)?;
    let pic_order_cnt_type = ue(bits, 2)?;
    sps.log2_max_frame_num_minus4 = log2_max_frame_num_minus4;
    sps.pic_order_cnt_type = pic_order_cnt_type;
    match pic_order_cnt_type {
        0 => read_order_lsb(bits, sps),
        1 => read_order_cycle(alloc, bits, sps),
        _ => Ok(()),
    }
}

fn read_size<B: BitSource>(bits: &mut B, sps: &mut Sps) -> Result<(), SetFault>
    ensures { Answers sps_says (λ done. sps.new) result (B.left bits.new) (outcome_of (sps_size sps.old) (B.left bits.old)) }
{
    let max_num_ref_frames = ue(bits, u32::MAX - 1)?;
    let gaps_in_frame_num_value_allowed_flag = flag(bits)?;
    let pic_width_in_mbs_minus1 = ue(bits, u32::MAX - 1)?;
    let pic_height_in_map_units_minus1 = ue(bits, u32::MAX - 1)?;
    let frame_mbs_only_flag = flag(bits)?;
    let mb_adaptive_frame_field_flag = flag_when(bits, !frame_mbs_only_flag)?;
    let direct_8x8_inference_flag = flag(bits)?;
    sps.max_num_ref_frames = max_num_ref_frames;
    sps.gaps_in_frame_num_value_allowed_flag = gaps_in_frame_num_value_allowed_flag;
    sps.pic_width_in_mbs_minus1 = pic_width_in_mbs_minus1;
    sps.pic_height_in_map_units_minus1 = pic_height_in_map_units_minus1;
    sps.frame_mbs_only_flag = frame_mbs_only_flag;
    sps.mb_adaptive_frame_field_flag = mb_adaptive_frame_field_flag;
    sps.direct_8x8_inference_flag = direct_8x8_inference_flag;
    Ok(())
}

/// Whether the picture is wider than 1055 macroblocks, or a frame has more than 139,264.
fn is_too_large(sps: &Sps) -> bool
    ensures { result ≡ is_above_limits sps.now }
{
    let width_minus1 = sps.pic_width_in_mbs_minus1;
    let map_units_minus1 = sps.pic_height_in_map_units_minus1;
    let width = u64::from(width_minus1) + 1;
    let map_units = u64::from(map_units_minus1) + 1;
    let height = if sps.frame_mbs_only_flag {
        map_units
    } else {
        2 * map_units
    };
    width > 1055 || width * height > 139_264
}

#[tactic(auto, using(exp_golomb::proofs::Syntaxes::outcome_of_then), unfolding(exp_golomb::specs::Syntax::outcome_of, crate::specs::SequenceParameterSet::sps_profile))]
fn read_profile<B: BitSource>(alloc: Global, bits: &mut B) -> Result<Sps, SetFault>
    ensures { Answers sps_says (λ x. x) result (B.left bits.new) (outcome_of sps_profile (B.left bits.old)) }
{
    let mut sps = read_head(alloc, bits)?;
    if sps.profile_idc == 100 {
        read_high(alloc, bits, &mut sps)?;
    }
    Ok(sps)
}

#[tactic(auto, using(exp_golomb::proofs::Syntaxes::outcome_of_then), unfolding(exp_golomb::specs::Syntax::outcome_of, crate::specs::SequenceParameterSet::sps_fields))]
fn read_fields<B: BitSource>(alloc: Global, bits: &mut B) -> Result<Sps, SetFault>
    ensures { Answers sps_says (λ x. x) result (B.left bits.new) (outcome_of sps_fields (B.left bits.old)) }
{
    let mut sps = read_profile(alloc, bits)?;
    read_order(alloc, bits, &mut sps)?;
    read_size(bits, &mut sps)?;
    Ok(sps)
}

#[tactic(auto, using(exp_golomb::proofs::Syntaxes::outcome_of_then), unfolding(exp_golomb::specs::Syntax::outcome_of, crate::specs::SequenceParameterSet::seq_parameter_set))]
fn read_whole<B: BitSource>(alloc: Global, bits: &mut B) -> Result<Sps, SetFault>
    ensures { Answers sps_says (λ x. x) result [] (outcome_of seq_parameter_set (B.left bits.old)) }
{
    let mut sps = read_fields(alloc, bits)?;
    let rest = read_unread_bits(alloc, bits)?;
    if is_too_large(&sps) {
        return Err(SetFault::Limit);
    }
    sps.rest = rest;
    Ok(sps)
}

/// The sequence parameter set of a payload (7.3.2.1.1), which is the bytes behind the unit's header byte without their
/// emulation prevention bytes. A field outside Main and High is `Profile`; a picture wider than 1055 macroblocks or a
/// frame of more than 139,264 is `Limit`, once the whole text was read; a text of no fields is `NoReading`.
pub fn read_sps(alloc: Global, payload: &[u8]) -> Result<Sps, SetFault>
    ensures reads { ReadsSps result (bits_of payload.now) }
    ensures in_range { IfOk result (λ set. IsSps set) }
    // The same as a function of the bits.
    ensures exact { Answers sps_says (λ x. x) result [] (outcome_of seq_parameter_set (bits_of payload.now)) }
{
    let mut bits = SliceBits::new(payload);
    read_whole(alloc, &mut bits)
}
