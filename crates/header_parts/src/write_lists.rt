ghost use Rattle.std.specs.Prelude.{◌≡◌, not};
ghost use Rattle.bit_texts.specs.Texts.{Appends, when_text, IsWhen};
ghost use Rattle.ref_pic_lists.specs.PredWeightTable.{weights_text, InRange, IsOptional};
ghost use Rattle.ref_pic_lists.specs.RefPicListModification.{modification_text, ModificationFits};
ghost use Rattle.header_parts.specs.SliceTypes.{is_i, is_b};
ghost use Rattle.header_parts.specs.PartsOf.{lists_of};
ghost use Rattle.header_parts.specs.ReferenceLists.{no_modification, lists_text, table_text};

use crate::header::Header;
use crate::slice_types::{is_b_slice, is_i_slice};
use exp_golomb::BitSink;
use ref_pic_lists::{ListModification, WeightTable, write_modification, write_weights};
use std::alloc::AllocError as Memory;

/// The modification of a list where it stands.
fn write_list_when<B: BitSink>(
    out: &mut B,
    present: bool,
    modification: &ListModification,
) -> Result<(), Memory>
    requires { IsWhen present no_modification ModificationFits modification.now }
    ensures { Appends (B.bits out.old) (B.bits out.new) (when_text present modification_text modification.now) result }
{
    if !present {
        return Ok(());
    }
    write_modification(out, modification)
}

/// The table of weights where there is one.
fn write_table<B: BitSink>(out: &mut B, table: &Option<WeightTable>) -> Result<(), Memory>
    requires { IsOptional InRange table.now }
    ensures { Appends (B.bits out.old) (B.bits out.new) (table_text table.now) result }
{
    match table {
        None => Ok(()),
        Some(table) => write_weights(out, table),
    }
}

/// The modifications of the lists that a slice has, and the weights of their active references (7.3.3).
pub fn write_reference_lists<B: BitSink>(out: &mut B, h: &Header) -> Result<(), Memory>
    requires modification_l0 { IsWhen (not (is_i h.now.slice_type)) no_modification ModificationFits h.now.modification_l0 }
    requires modification_l1 { IsWhen (is_b h.now.slice_type) no_modification ModificationFits h.now.modification_l1 }
    requires weights { IsOptional InRange h.now.pred_weight_table }
    ensures { Appends (B.bits out.old) (B.bits out.new) (lists_text h.now.slice_type (lists_of h.now)) result }
{
    write_list_when(out, !is_i_slice(h.slice_type), &h.modification_l0)?;
    write_list_when(out, is_b_slice(h.slice_type), &h.modification_l1)?;
    write_table(out, &h.pred_weight_table)
}
