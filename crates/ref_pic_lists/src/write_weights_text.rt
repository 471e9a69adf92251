ghost use Rattle.std.specs.Prelude.{◌≡◌, ◌++◌, [], ◌∷◌, true};
ghost use Rattle.std.specs.List.{flat_map, AllByRecursion};
ghost use Rattle.bit_texts.specs.Texts.{Appends};
ghost use Rattle.ref_pic_lists.specs.PredWeightTable.{weight_text, chroma_text, optional_text, entry_text, weights_text, IsWeight, IsChroma, IsOptional, IsEntry, InRange};

use crate::weights::{ChromaWeights, EntryWeights, Weight, WeightTable};
use crate::write_element::{write_flag, write_signed};
use exp_golomb::{BitSink, write_ue};
use std::alloc::AllocError as Memory;

/// A weight and its offset.
fn write_weight<B: BitSink>(out: &mut B, weight: Weight) -> Result<(), Memory>
    requires { IsWeight weight }
    ensures { Appends (B.bits out.old) (B.bits out.new) (weight_text weight) result }
{
    write_signed(out, weight.weight)?;
    write_signed(out, weight.offset)
}

/// Those of Cb, and then those of Cr.
fn write_chroma<B: BitSink>(out: &mut B, chroma: ChromaWeights) -> Result<(), Memory>
    requires { IsChroma chroma }
    ensures { Appends (B.bits out.old) (B.bits out.new) (chroma_text chroma) result }
{
    write_weight(out, chroma.cb)?;
    write_weight(out, chroma.cr)
}

/// A flag with the value 1, and luma weights.
fn write_some_luma<B: BitSink>(out: &mut B, luma: Weight) -> Result<(), Memory>
    requires { IsWeight luma }
    ensures { Appends (B.bits out.old) (B.bits out.new) ((true ∷ []) ++ weight_text luma) result }
{
    write_flag(out, true)?;
    write_weight(out, luma)
}

/// A flag with the value 1, and chroma weights.
fn write_some_chroma<B: BitSink>(out: &mut B, chroma: ChromaWeights) -> Result<(), Memory>
    requires { IsChroma chroma }
    ensures { Appends (B.bits out.old) (B.bits out.new) ((true ∷ []) ++ chroma_text chroma) result }
{
    write_flag(out, true)?;
    write_chroma(out, chroma)
}

/// luma_weight_flag, and the luma weights where it is 1.
fn write_luma<B: BitSink>(out: &mut B, luma: Option<Weight>) -> Result<(), Memory>
    requires { IsOptional IsWeight luma }
    ensures { Appends (B.bits out.old) (B.bits out.new) (optional_text weight_text luma) result }
{
    match luma {
        None => write_flag(out, false),
        Some(luma) => write_some_luma(out, luma),
    }
}

/// chroma_weight_flag, and the chroma weights where it is 1.
fn write_both_chroma<B: BitSink>(out: &mut B, chroma: Option<ChromaWeights>) -> Result<(), Memory>
    requires { IsOptional IsChroma chroma }
    ensures { Appends (B.bits out.old) (B.bits out.new) (optional_text chroma_text chroma) result }
{
    match chroma {
        None => write_flag(out, false),
        Some(chroma) => write_some_chroma(out, chroma),
    }
}

/// The weights of one reference.
fn write_entry<B: BitSink>(out: &mut B, entry: EntryWeights) -> Result<(), Memory>
    requires { IsEntry entry }
    ensures { Appends (B.bits out.old) (B.bits out.new) (entry_text entry) result }
{
    write_luma(out, entry.luma)?;
    write_both_chroma(out, entry.chroma)
}

fn write_entries<B: BitSink>(out: &mut B, entries: &[EntryWeights]) -> Result<(), Memory>
    requires { AllByRecursion IsEntry entries.now }
    ensures { Appends (B.bits out.old) (B.bits out.new) (flat_map entry_text entries.now) result }
{
    for entry in entries {
        write_entry(out, *entry)?;
    }
    Ok(())
}

/// pred_weight_table (7.3.3.2), with chroma of 4:2:0: appends its text. Want of memory leaves a front of it appended.
pub fn write_weights<B: BitSink>(out: &mut B, table: &WeightTable) -> Result<(), Memory>
    requires { InRange table.now }
    ensures { Appends (B.bits out.old) (B.bits out.new) (weights_text table.now) result }
{
    write_ue(out, table.luma_log2_weight_denom)?;
    write_ue(out, table.chroma_log2_weight_denom)?;
    write_entries(out, table.list_0.as_slice())?;
    write_entries(out, table.list_1.as_slice())
}
