ghost use Rattle.std.specs.Prelude.{◌≡◌, ◌≤◌, ◌+◌, ◌&&◌, ◌≤ℤ◌, pos, negsuc, ◌==◌, not, ◌++◌};
ghost use Rattle.exp_golomb.specs.Syntax.{outcome_of, Answers, series};
ghost use Rattle.param_sets.specs.PpsCodes.{IsPps};
ghost use Rattle.param_sets.specs.SpsCodes.{IsSps};
ghost use Rattle.header_parts.specs.NalHeader.{is_idr};
ghost use Rattle.header_parts.specs.Refusal.{header_says};
ghost use Rattle.header_parts.specs.Picture.{picture_number, picture_order, tells_bottom, has_bottom, delta_count, delta_pic_order_cnt};
ghost use Rattle.header_parts.specs.QuantisationAndFilter.{has_offsets, slice_qp, slice_qp_y, is_qp, deblocking};
ghost use Rattle.header_parts.specs.ActiveSets.{active_view};

use crate::active_sets::ActiveSets;
use crate::fault::HeaderFault;
use crate::parts::{Deblocking, PictureNumber, PictureOrder};
use crate::read_element::{flag_when, se, se_when, u, u_when, ue_when};
use exp_golomb::BitSource;
use param_sets::{Elements, Pps, Sps};
use std::alloc::Global;

/// IdrPicFlag of a header byte (7.4.1).
pub fn is_idr_unit(nal: u8) -> bool
    ensures { result ≡ is_idr nal }
{
    nal % 32 == 5
}

/// The length of frame_num (7.4.3).
pub fn frame_num_length(sps: &Sps) -> u8
    requires { IsSps sps.now }
    ensures value { result ≡ sps.now.log2_max_frame_num_minus4 + 4 }
    ensures most { result ≤ 16 }
{
    sps.log2_max_frame_num_minus4 as u8 + 4
}

#[tactic(auto, using(exp_golomb::proofs::Syntaxes::outcome_of_then), unfolding(exp_golomb::specs::Syntax::outcome_of, crate::specs::Picture::picture_number))]
pub fn read_picture_number<B: BitSource>(
    bits: &mut B,
    sps: &Sps,
    nal: u8,
) -> Result<PictureNumber, HeaderFault>
    requires { IsSps sps.now }
    ensures answers { Answers header_says (λ x. x) result (B.left bits.new) (outcome_of (picture_number sps.now nal) (B.left bits.old)) }
    ensures kept { B.taken bits.new ++ B.left bits.new ≡ B.taken bits.old ++ B.left bits.old }
{
    let frame_num = u(bits, frame_num_length(sps))?;
    let field_pic_flag = flag_when(bits, !sps.frame_mbs_only_flag)?;
    let bottom_field_flag = flag_when(bits, field_pic_flag)?;
    let idr_pic_id = ue_when(bits, is_idr_unit(nal), 65535)?;
    Ok(PictureNumber {
        frame_num,
        field_pic_flag,
        bottom_field_flag,
        idr_pic_id,
    })
}

/// The length of pic_order_cnt_lsb where it stands (7.4.3).
pub fn lsb_length(sps: &Sps) -> u8
    requires { IsSps sps.now }
    ensures value { result ≡ sps.now.log2_max_pic_order_cnt_lsb_minus4 + 4 }
    ensures most { result ≤ 16 }
{
    sps.log2_max_pic_order_cnt_lsb_minus4 as u8 + 4
}

/// Whether a second picture order count is told, that of the bottom field of a frame.
fn tells_bottom_field(pps: &Pps, field_pic_flag: bool) -> bool
    ensures { result ≡ tells_bottom pps.now field_pic_flag }
{
    pps.bottom_field_pic_order_in_frame_present_flag && !field_pic_flag
}

/// Whether delta_pic_order_cnt_bottom stands.
pub fn has_bottom_delta(active: &ActiveSets<'_>, field_pic_flag: bool) -> bool
    ensures { result ≡ has_bottom (active_view active.now) field_pic_flag }
{
    active.sps.pic_order_cnt_type == 0 && tells_bottom_field(active.pps, field_pic_flag)
}

/// How many entries delta_pic_order_cnt has.
fn count_of_deltas(active: &ActiveSets<'_>, field_pic_flag: bool) -> u8
    ensures { result ≡ delta_count (active_view active.now) field_pic_flag }
{
    if active.sps.pic_order_cnt_type != 1 || active.sps.delta_pic_order_always_zero_flag {
        return 0;
    }
    if tells_bottom_field(active.pps, field_pic_flag) {
        2
    } else {
        1
    }
}

fn read_deltas<B: BitSource>(
    alloc: Global,
    bits: &mut B,
    count: u8,
) -> Result<Elements<i32>, HeaderFault>
    ensures answers { Answers header_says (λ x. x) result (B.left bits.new) (outcome_of (series count 0 (λ place. delta_pic_order_cnt)) (B.left bits.old)) }
    ensures kept { B.taken bits.new ++ B.left bits.new ≡ B.taken bits.old ++ B.left bits.old }
{
    let mut deltas = Vec::new(alloc);
    for _place in 0..count {
        let delta = se(bits, -i32::MAX, i32::MAX)?;
        deltas.push(delta)?;
    }
    Ok(Elements::new(deltas))
}

#[tactic(auto, using(exp_golomb::proofs::Syntaxes::outcome_of_then), unfolding(exp_golomb::specs::Syntax::outcome_of, crate::specs::Picture::picture_order))]
pub fn read_picture_order<B: BitSource>(
    alloc: Global,
    bits: &mut B,
    active: &ActiveSets<'_>,
    field_pic_flag: bool,
) -> Result<PictureOrder, HeaderFault>
    requires { IsSps active.now.sps.now }
    ensures answers { Answers header_says (λ x. x) result (B.left bits.new) (outcome_of (picture_order (active_view active.now) field_pic_flag) (B.left bits.old)) }
    ensures kept { B.taken bits.new ++ B.left bits.new ≡ B.taken bits.old ++ B.left bits.old }
{
    let has_lsb = active.sps.pic_order_cnt_type == 0;
    let has_bottom = has_bottom_delta(active, field_pic_flag);
    let pic_order_cnt_lsb = u_when(bits, has_lsb, lsb_length(active.sps))?;
    let delta_pic_order_cnt_bottom = se_when(bits, has_bottom, -i32::MAX, i32::MAX)?;
    let delta_pic_order_cnt = read_deltas(alloc, bits, count_of_deltas(active, field_pic_flag))?;
    Ok(PictureOrder {
        pic_order_cnt_lsb,
        delta_pic_order_cnt_bottom,
        delta_pic_order_cnt,
    })
}

/// SliceQPY (7-30).
pub fn slice_qp_y_of(pps: &Pps, slice_qp_delta: i32) -> i64
    requires { IsPps pps.now }
    ensures { result ≡ slice_qp_y pps.now slice_qp_delta }
{
    let pic_init_qp_minus26 = pps.pic_init_qp_minus26;
    26 + i64::from(pic_init_qp_minus26) + i64::from(slice_qp_delta)
}

/// Whether a QP is 0 to 51.
fn is_qp_in_range(qp: i64) -> bool
    ensures { result ≡ is_qp qp }
{
    if qp < 0 {
        return false;
    }
    qp <= 51
}

#[tactic(auto, unfolding(exp_golomb::specs::Syntax::outcome_of, crate::specs::QuantisationAndFilter::slice_qp))]
pub fn read_slice_qp<B: BitSource>(bits: &mut B, pps: &Pps) -> Result<i32, HeaderFault>
    requires { IsPps pps.now }
    ensures answers { Answers header_says (λ x. x) result (B.left bits.new) (outcome_of (slice_qp pps.now) (B.left bits.old)) }
    ensures kept { B.taken bits.new ++ B.left bits.new ≡ B.taken bits.old ++ B.left bits.old }
{
    let slice_qp_delta = se(bits, -i32::MAX, i32::MAX)?;
    if !is_qp_in_range(slice_qp_y_of(pps, slice_qp_delta)) {
        return Err(HeaderFault::NoReading);
    }
    Ok(slice_qp_delta)
}

/// Whether the offsets of the filter stand.
pub fn has_filter_offsets(present: bool, disable_deblocking_filter_idc: u32) -> bool
    ensures { result ≡ has_offsets present disable_deblocking_filter_idc }
{
    present && disable_deblocking_filter_idc != 1
}

#[tactic(auto, using(exp_golomb::proofs::Syntaxes::outcome_of_then), unfolding(exp_golomb::specs::Syntax::outcome_of, crate::specs::QuantisationAndFilter::deblocking))]
pub fn read_deblocking<B: BitSource>(bits: &mut B, present: bool) -> Result<Deblocking, HeaderFault>
    ensures answers { Answers header_says (λ x. x) result (B.left bits.new) (outcome_of (deblocking present) (B.left bits.old)) }
    ensures kept { B.taken bits.new ++ B.left bits.new ≡ B.taken bits.old ++ B.left bits.old }
{
    let disable_deblocking_filter_idc = ue_when(bits, present, 2)?;
    let filters = has_filter_offsets(present, disable_deblocking_filter_idc);
    let slice_alpha_c0_offset_div2 = se_when(bits, filters, -6, 6)?;
    let slice_beta_offset_div2 = se_when(bits, filters, -6, 6)?;
    Ok(Deblocking {
        disable_deblocking_filter_idc,
        slice_alpha_c0_offset_div2,
        slice_beta_offset_div2,
    })
}
