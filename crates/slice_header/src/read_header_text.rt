ghost use Rattle.std.specs.Prelude.{◌≡◌, ◌&&◌, not, IfOk, ◌++◌};
ghost use Rattle.exp_golomb.specs.Syntax.{outcome_of, Answers};
ghost use Rattle.param_sets.specs.PpsCodes.{IsPps};
ghost use Rattle.param_sets.specs.SpsCodes.{IsSps};
ghost use Rattle.slice_header.specs.HeaderCodes.{HeaderFits, IsUnder, Names, ReadsHeader};
ghost use Rattle.header_parts.specs.ActiveSets.{active_view};
ghost use Rattle.header_parts.specs.Refusal.{header_says};
ghost use Rattle.slice_header.specs.SliceHeader.{has_init, after_start, slice_header};
ghost use Rattle.slice_header.specs.Views.{start_view, without_sets};

use crate::read_start_text::read_start;
use crate::slice_start::SliceStart;
use exp_golomb::BitSource;
use header_parts::read_element::ue_when;
use header_parts::{
    ActiveSets, Header, HeaderFault, is_i_slice, read_active_references, read_deblocking,
    read_marking, read_picture_number, read_picture_order, read_reference_lists, read_slice_qp,
};
use param_sets::{Pps, Sets};
use std::alloc::Global;

/// Whether cabac_init_idc stands.
pub fn has_cabac_init(pps: &Pps, slice_type: u32) -> bool
    ensures { result ≡ has_init pps.now slice_type }
{
    pps.entropy_coding_mode_flag && !is_i_slice(slice_type)
}

/// What follows the start.
#[tactic(auto, using(exp_golomb::proofs::Syntaxes::outcome_of_then), unfolding(exp_golomb::specs::Syntax::outcome_of, crate::specs::SliceHeader::after_start))]
fn read_after_start<B: BitSource>(
    alloc: Global,
    nal: u8,
    start: &SliceStart<'_>,
    bits: &mut B,
) -> Result<Header, HeaderFault>
    requires { IsSps start.now.active.sps.now × IsPps start.now.active.pps.now }
    ensures answers { Answers header_says (λ x. x) result (B.left bits.new) (outcome_of (after_start nal (start_view start.now)) (B.left bits.old)) }
    ensures kept { B.taken bits.new ++ B.left bits.new ≡ B.taken bits.old ++ B.left bits.old }
{
    let active = &start.active;
    let picture = read_picture_number(bits, active.sps, nal)?;
    let order = read_picture_order(alloc, bits, active, picture.field_pic_flag)?;
    let references = read_active_references(
        bits,
        active.pps,
        start.slice_type,
        picture.field_pic_flag,
    )?;
    let lists = read_reference_lists(alloc, bits, active.pps, start.slice_type, references)?;
    let marking = read_marking(alloc, bits, nal)?;
    let has_init = has_cabac_init(active.pps, start.slice_type);
    let cabac_init_idc = ue_when(bits, has_init, 2)?;
    let slice_qp_delta = read_slice_qp(bits, active.pps)?;
    let filter = read_deblocking(bits, active.pps.deblocking_filter_control_present_flag)?;
    Ok(Header {
        nal,
        first_mb_in_slice: start.first_mb_in_slice,
        slice_type: start.slice_type,
        pic_parameter_set_id: start.pic_parameter_set_id,
        frame_num: picture.frame_num,
        field_pic_flag: picture.field_pic_flag,
        bottom_field_flag: picture.bottom_field_flag,
        idr_pic_id: picture.idr_pic_id,
        pic_order_cnt_lsb: order.pic_order_cnt_lsb,
        delta_pic_order_cnt_bottom: order.delta_pic_order_cnt_bottom,
        delta_pic_order_cnt: order.delta_pic_order_cnt,
        direct_spatial_mv_pred_flag: references.direct_spatial_mv_pred_flag,
        num_ref_idx_active_override_flag: references.num_ref_idx_active_override_flag,
        num_ref_idx_l0_active_minus1: references.num_ref_idx_l0_active_minus1,
        num_ref_idx_l1_active_minus1: references.num_ref_idx_l1_active_minus1,
        modification_l0: lists.modification_l0,
        modification_l1: lists.modification_l1,
        pred_weight_table: lists.pred_weight_table,
        no_output_of_prior_pics_flag: marking.no_output_of_prior_pics_flag,
        long_term_reference_flag: marking.long_term_reference_flag,
        adaptive_ref_pic_marking_mode_flag: marking.adaptive_ref_pic_marking_mode_flag,
        memory_management_control_operation: marking.operations,
        cabac_init_idc,
        slice_qp_delta,
        disable_deblocking_filter_idc: filter.disable_deblocking_filter_idc,
        slice_alpha_c0_offset_div2: filter.slice_alpha_c0_offset_div2,
        slice_beta_offset_div2: filter.slice_beta_offset_div2,
    })
}

#[tactic(auto, using(exp_golomb::proofs::Syntaxes::outcome_of_then), unfolding(exp_golomb::specs::Syntax::outcome_of, crate::specs::SliceHeader::slice_header))]
fn read_whole<'a, B: BitSource>(
    alloc: Global,
    sets: &'a Sets,
    header: u8,
    bits: &mut B,
) -> Result<(Header, ActiveSets<'a>), HeaderFault>
    ensures answers { Answers header_says (λ read. read.0) result (B.left bits.new) (outcome_of (slice_header sets.now header) (B.left bits.old)) }
    ensures in_range { IfOk result (λ read. IsSps read.1.sps.now × IsPps read.1.pps.now) }
    ensures names { IfOk result (λ read. Names sets.now read.0.pic_parameter_set_id (active_view read.1)) }
    ensures fits { IfOk result (λ read. HeaderFits (active_view read.1) read.0 × (read.0.nal ≡ header)) }
    ensures kept { B.taken bits.new ++ B.left bits.new ≡ B.taken bits.old ++ B.left bits.old }
{
    let start = read_start(sets, bits)?;
    let h = read_after_start(alloc, header, &start, bits)?;
    Ok((h, start.active))
}

/// The slice header (7.3.3) of a unit with this header byte, under the sets that stand, and the two sets that it names;
/// just its text is taken. A slice type of SP or SI is `Profile`, before a set is looked for. Then sets that don't stand
/// are `MissingPps` and `MissingSps` with their number, and a transform of 8x8 blocks under Main is `Profile`, before
/// frame_num. A text of no header is `NoReading`, at the element where it stops being one.
pub fn read_header_with_sets<'a, B: BitSource>(
    alloc: Global,
    sets: &'a Sets,
    header: u8,
    bits: &mut B,
) -> Result<(Header, ActiveSets<'a>), HeaderFault>
    ensures reads { ReadsHeader sets.now header (without_sets result) (B.left bits.old) (B.left bits.new) }
    ensures names { IfOk result (λ read. Names sets.now read.0.pic_parameter_set_id (active_view read.1)) }
    ensures fits { IfOk result (λ read. HeaderFits (active_view read.1) read.0 × (read.0.nal ≡ header)) }
    ensures in_range { IfOk result (λ read. IsSps read.1.sps.now × IsPps read.1.pps.now) }
    // The same as a function of the bits.
    ensures exact { Answers header_says (λ read. read.0) result (B.left bits.new) (outcome_of (slice_header sets.now header) (B.left bits.old)) }
    ensures kept { B.taken bits.new ++ B.left bits.new ≡ B.taken bits.old ++ B.left bits.old }
{
    read_whole(alloc, sets, header, bits)
}

/// The same without the sets.
pub fn read_header<B: BitSource>(
    alloc: Global,
    sets: &Sets,
    header: u8,
    bits: &mut B,
) -> Result<Header, HeaderFault>
    ensures reads { ReadsHeader sets.now header result (B.left bits.old) (B.left bits.new) }
    ensures in_range { IfOk result (λ h. IsUnder sets.now h × (h.nal ≡ header)) }
    // The same as a function of the bits.
    ensures exact { Answers header_says (λ x. x) result (B.left bits.new) (outcome_of (slice_header sets.now header) (B.left bits.old)) }
    ensures kept { B.taken bits.new ++ B.left bits.new ≡ B.taken bits.old ++ B.left bits.old }
{
    let (h, _) = read_header_with_sets(alloc, sets, header, bits)?;
    Ok(h)
}
