ghost use Rattle.std.specs.Prelude.{◌≡◌, ◌≤◌, ◌&&◌, ◌++◌, IfOk};
ghost use Rattle.exp_golomb.specs.Syntax.{outcome_of, Answers};
ghost use Rattle.param_sets.specs.PpsCodes.{IsPps};
ghost use Rattle.header_parts.specs.Refusal.{header_says};
ghost use Rattle.header_parts.specs.SliceTypes.{is_b};
ghost use Rattle.header_parts.specs.References.{in_force, active_l0, active_l1, most_active, are_few, active_references};

use crate::fault::HeaderFault;
use crate::parts::ActiveReferences;
use crate::read_element::{flag_when, ue_when};
use crate::slice_types::{is_b_slice, is_i_slice};
use exp_golomb::BitSource;
use param_sets::Pps;

/// The number of active references of a list: as it is sent, else the default.
fn number_in_force(overridden: bool, sent_minus1: u32, default_minus1: u32) -> u8
    requires sent { sent_minus1 ≤ 31 }
    requires default { default_minus1 ≤ 31 }
    ensures value { result ≡ in_force overridden sent_minus1 default_minus1 }
    ensures most { result ≤ 32 }
{
    let minus1 = if overridden {
        sent_minus1
    } else {
        default_minus1
    };
    minus1 as u8 + 1
}

/// The number of active references of list 0 (7.4.3), which an I slice doesn't have.
pub fn active_references_l0(pps: &Pps, slice_type: u32, r: ActiveReferences) -> u8
    requires pps { IsPps pps.now }
    requires sent { r.num_ref_idx_l0_active_minus1 ≤ 31 }
    ensures value { result ≡ active_l0 pps.now slice_type r }
    ensures most { result ≤ 32 }
{
    if is_i_slice(slice_type) {
        return 0;
    }
    number_in_force(
        r.num_ref_idx_active_override_flag,
        r.num_ref_idx_l0_active_minus1,
        pps.num_ref_idx_l0_default_active_minus1,
    )
}

/// The number of active references of list 1 (7.4.3), which B slices alone have.
pub fn active_references_l1(pps: &Pps, slice_type: u32, r: ActiveReferences) -> u8
    requires pps { IsPps pps.now }
    requires sent { r.num_ref_idx_l1_active_minus1 ≤ 31 }
    ensures value { result ≡ active_l1 pps.now slice_type r }
    ensures most { result ≤ 32 }
{
    if !is_b_slice(slice_type) {
        return 0;
    }
    number_in_force(
        r.num_ref_idx_active_override_flag,
        r.num_ref_idx_l1_active_minus1,
        pps.num_ref_idx_l1_default_active_minus1,
    )
}

/// Whether no list has too many active references for a frame or a field.
fn are_few_references(pps: &Pps, slice_type: u32, field_pic_flag: bool, r: ActiveReferences) -> bool
    requires pps { IsPps pps.now }
    requires sent_l0 { r.num_ref_idx_l0_active_minus1 ≤ 31 }
    requires sent_l1 { r.num_ref_idx_l1_active_minus1 ≤ 31 }
    ensures { result ≡ are_few pps.now slice_type field_pic_flag r }
{
    let most = if field_pic_flag { 32 } else { 16 };
    active_references_l0(pps, slice_type, r) <= most
        && active_references_l1(pps, slice_type, r) <= most
}

/// Whether num_ref_idx_l1_active_minus1 stands.
pub fn sends_list_1(overridden: bool, slice_type: u32) -> bool
    ensures { result ≡ (overridden && is_b slice_type) }
{
    overridden && is_b_slice(slice_type)
}

/// direct_spatial_mv_pred_flag up to num_ref_idx_l1_active_minus1 (7.3.3). More active references in force than 16 in a
/// frame or 32 in a field are `NoReading`.
#[tactic(auto, using(exp_golomb::proofs::Syntaxes::outcome_of_then), unfolding(exp_golomb::specs::Syntax::outcome_of, crate::specs::References::active_references))]
pub fn read_active_references<B: BitSource>(
    bits: &mut B,
    pps: &Pps,
    slice_type: u32,
    field_pic_flag: bool,
) -> Result<ActiveReferences, HeaderFault>
    requires { IsPps pps.now }
    ensures answers { Answers header_says (λ x. x) result (B.left bits.new) (outcome_of (active_references pps.now slice_type field_pic_flag) (B.left bits.old)) }
    ensures sent { IfOk result (λ r. (r.num_ref_idx_l0_active_minus1 ≤ 31) × (r.num_ref_idx_l1_active_minus1 ≤ 31)) }
    ensures kept { B.taken bits.new ++ B.left bits.new ≡ B.taken bits.old ++ B.left bits.old }
{
    let direct_spatial_mv_pred_flag = flag_when(bits, is_b_slice(slice_type))?;
    let overridden = flag_when(bits, !is_i_slice(slice_type))?;
    let num_ref_idx_l0_active_minus1 = ue_when(bits, overridden, 31)?;
    let num_ref_idx_l1_active_minus1 = ue_when(bits, sends_list_1(overridden, slice_type), 31)?;
    let r = ActiveReferences {
        direct_spatial_mv_pred_flag,
        num_ref_idx_active_override_flag: overridden,
        num_ref_idx_l0_active_minus1,
        num_ref_idx_l1_active_minus1,
    };
    if !are_few_references(pps, slice_type, field_pic_flag, r) {
        return Err(HeaderFault::NoReading);
    }
    Ok(r)
}
