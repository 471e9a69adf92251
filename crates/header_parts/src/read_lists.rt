ghost use Rattle.std.specs.Prelude.{◌≡◌, ◌≤◌, ◌++◌};
ghost use Rattle.exp_golomb.specs.Syntax.{outcome_of, Answers};
ghost use Rattle.param_sets.specs.PpsCodes.{IsPps};
ghost use Rattle.ref_pic_lists.specs.PredWeightTable.{pred_weight_table};
ghost use Rattle.ref_pic_lists.specs.RefPicListModification.{ref_pic_list_modification};
ghost use Rattle.header_parts.specs.Refusal.{header_says};
ghost use Rattle.header_parts.specs.ReferenceLists.{has_weights, modification_when, weighted_l1, weights_when, reference_lists};

use crate::fault::HeaderFault;
use crate::parts::{ActiveReferences, ReferenceLists};
use crate::read_references::{active_references_l0, active_references_l1};
use crate::slice_types::{is_b_slice, is_i_slice, is_p_slice};
use exp_golomb::BitSource;
use param_sets::{Elements, Pps};
use ref_pic_lists::{ListModification, WeightTable, read_modification, read_weights};
use std::alloc::Global;

/// The modification of a list.
fn read_list<B: BitSource>(alloc: Global, bits: &mut B) -> Result<ListModification, HeaderFault>
    ensures answers { Answers header_says (λ x. x) result (B.left bits.new) (outcome_of ref_pic_list_modification (B.left bits.old)) }
    ensures kept { B.taken bits.new ++ B.left bits.new ≡ B.taken bits.old ++ B.left bits.old }
{
    Ok(read_modification(alloc, bits)?)
}

/// The modification of a list where it stands.
#[tactic(auto, unfolding(exp_golomb::specs::Syntax::outcome_of))]
fn read_list_when<B: BitSource>(
    alloc: Global,
    bits: &mut B,
    present: bool,
) -> Result<ListModification, HeaderFault>
    ensures answers { Answers header_says (λ x. x) result (B.left bits.new) (outcome_of (modification_when present) (B.left bits.old)) }
    ensures kept { B.taken bits.new ++ B.left bits.new ≡ B.taken bits.old ++ B.left bits.old }
{
    if !present {
        return Ok(ListModification {
            flag: false,
            operations: Elements::new(Vec::new(alloc)),
        });
    }
    read_list(alloc, bits)
}

/// Whether pred_weight_table stands.
fn has_weight_table(pps: &Pps, slice_type: u32) -> bool
    ensures { result ≡ has_weights pps.now slice_type }
{
    if is_b_slice(slice_type) {
        return pps.weighted_bipred_idc == 1;
    }
    is_p_slice(slice_type) && pps.weighted_pred_flag
}

/// The references of list 1 that have weights.
fn weighted_references_l1(pps: &Pps, slice_type: u32, r: ActiveReferences) -> Option<u8>
    requires pps { IsPps pps.now }
    requires sent { r.num_ref_idx_l1_active_minus1 ≤ 31 }
    ensures { result ≡ weighted_l1 pps.now slice_type r }
{
    if !is_b_slice(slice_type) {
        return None;
    }
    Some(active_references_l1(pps, slice_type, r))
}

/// The table of weights.
fn read_table<B: BitSource>(
    alloc: Global,
    bits: &mut B,
    l0: u8,
    l1: Option<u8>,
) -> Result<WeightTable, HeaderFault>
    ensures answers { Answers header_says (λ x. x) result (B.left bits.new) (outcome_of (pred_weight_table l0 l1) (B.left bits.old)) }
    ensures kept { B.taken bits.new ++ B.left bits.new ≡ B.taken bits.old ++ B.left bits.old }
{
    Ok(read_weights(alloc, bits, l0, l1)?)
}

/// The table of weights where it stands.
#[tactic(auto, using(exp_golomb::proofs::Syntaxes::outcome_of_then), unfolding(exp_golomb::specs::Syntax::outcome_of, crate::specs::ReferenceLists::weights_when))]
fn read_table_when<B: BitSource>(
    alloc: Global,
    bits: &mut B,
    present: bool,
    l0: u8,
    l1: Option<u8>,
) -> Result<Option<WeightTable>, HeaderFault>
    ensures answers { Answers header_says (λ x. x) result (B.left bits.new) (outcome_of (weights_when present l0 l1) (B.left bits.old)) }
    ensures kept { B.taken bits.new ++ B.left bits.new ≡ B.taken bits.old ++ B.left bits.old }
{
    if !present {
        return Ok(None);
    }
    let table = read_table(alloc, bits, l0, l1)?;
    Ok(Some(table))
}

/// The modifications of the lists that a slice has, and the weights of their active references (7.3.3).
#[tactic(auto, using(exp_golomb::proofs::Syntaxes::outcome_of_then), unfolding(exp_golomb::specs::Syntax::outcome_of, crate::specs::ReferenceLists::reference_lists))]
pub fn read_reference_lists<B: BitSource>(
    alloc: Global,
    bits: &mut B,
    pps: &Pps,
    slice_type: u32,
    r: ActiveReferences,
) -> Result<ReferenceLists, HeaderFault>
    requires pps { IsPps pps.now }
    requires sent_l0 { r.num_ref_idx_l0_active_minus1 ≤ 31 }
    requires sent_l1 { r.num_ref_idx_l1_active_minus1 ≤ 31 }
    ensures answers { Answers header_says (λ x. x) result (B.left bits.new) (outcome_of (reference_lists pps.now slice_type r) (B.left bits.old)) }
    ensures kept { B.taken bits.new ++ B.left bits.new ≡ B.taken bits.old ++ B.left bits.old }
{
    let modification_l0 = read_list_when(alloc, bits, !is_i_slice(slice_type))?;
    let modification_l1 = read_list_when(alloc, bits, is_b_slice(slice_type))?;
    let l0 = active_references_l0(pps, slice_type, r);
    let l1 = weighted_references_l1(pps, slice_type, r);
    let pred_weight_table = read_table_when(
        alloc,
        bits,
        has_weight_table(pps, slice_type),
        l0,
        l1,
    )?;
    Ok(ReferenceLists {
        modification_l0,
        modification_l1,
        pred_weight_table,
    })
}
