ghost use Rattle.std.specs.Prelude.{◌≡◌, ◌≤◌, not};
ghost use Rattle.bit_texts.specs.Texts.{Appends};
ghost use Rattle.header_parts.specs.PartsOf.{references_of};
ghost use Rattle.header_parts.specs.References.{references_text};

use crate::header::Header;
use crate::parts::ActiveReferences;
use crate::read_references::sends_list_1;
use crate::slice_types::{is_b_slice, is_i_slice};
use crate::write_element::{write_flag_when, write_ue_when};
use exp_golomb::BitSink;
use std::alloc::AllocError as Memory;

/// The elements of a header that tell its active references.
pub fn references(h: &Header) -> ActiveReferences
    ensures { result ≡ references_of h.now }
{
    ActiveReferences {
        direct_spatial_mv_pred_flag: h.direct_spatial_mv_pred_flag,
        num_ref_idx_active_override_flag: h.num_ref_idx_active_override_flag,
        num_ref_idx_l0_active_minus1: h.num_ref_idx_l0_active_minus1,
        num_ref_idx_l1_active_minus1: h.num_ref_idx_l1_active_minus1,
    }
}

/// direct_spatial_mv_pred_flag up to num_ref_idx_l1_active_minus1 (7.3.3).
pub fn write_active_references<B: BitSink>(out: &mut B, h: &Header) -> Result<(), Memory>
    requires l0 { h.now.num_ref_idx_l0_active_minus1 ≤ 31 }
    requires l1 { h.now.num_ref_idx_l1_active_minus1 ≤ 31 }
    ensures { Appends (B.bits out.old) (B.bits out.new) (references_text h.now.slice_type (references_of h.now)) result }
{
    let overridden = h.num_ref_idx_active_override_flag;
    write_flag_when(out, is_b_slice(h.slice_type), h.direct_spatial_mv_pred_flag)?;
    write_flag_when(out, !is_i_slice(h.slice_type), overridden)?;
    write_ue_when(out, overridden, h.num_ref_idx_l0_active_minus1)?;
    let sends_l1 = sends_list_1(overridden, h.slice_type);
    write_ue_when(out, sends_l1, h.num_ref_idx_l1_active_minus1)
}
