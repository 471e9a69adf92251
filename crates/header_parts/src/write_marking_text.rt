ghost use Rattle.std.specs.Prelude.{◌≡◌, ◌≤◌, ◌++◌, [], ◌∷◌};
ghost use Rattle.std.specs.List.{flat_map, AllByRecursion};
ghost use Rattle.bit_texts.specs.Texts.{Appends, when_text, IsWhen};
ghost use Rattle.exp_golomb.specs.Code.{ue};
ghost use Rattle.header_parts.specs.PartsOf.{marking_of};
ghost use Rattle.header_parts.specs.RefPicMarking.{operation_text, operations_text, marking_text, IsOperation, MarkingFits};

use crate::header::{Header, MemoryManagement};
use crate::read_marking_text::{is_idr_reference, is_other_reference};
use crate::write_element::write_flag_when;
use exp_golomb::{BitSink, write_ue};
use std::alloc::AllocError as Memory;

/// A number and one operand.
fn write_two<B: BitSink>(out: &mut B, first: u32, second: u32) -> Result<(), Memory>
    requires first { first ≤ 4294967294 }
    requires second { second ≤ 4294967294 }
    ensures { Appends (B.bits out.old) (B.bits out.new) (ue first ++ ue second) result }
{
    write_ue(out, first)?;
    write_ue(out, second)
}

/// An operation with its operands.
fn write_operation<B: BitSink>(out: &mut B, operation: MemoryManagement) -> Result<(), Memory>
    requires { IsOperation operation }
    ensures { Appends (B.bits out.old) (B.bits out.new) (operation_text operation) result }
{
    match operation {
        MemoryManagement::ShortTermUnused {
            difference_of_pic_nums_minus1,
        } => write_two(out, 1, difference_of_pic_nums_minus1),
        MemoryManagement::LongTermUnused { long_term_pic_num } => {
            write_two(out, 2, long_term_pic_num)
        }
        MemoryManagement::ShortTermToLongTerm {
            difference_of_pic_nums_minus1,
            long_term_frame_idx,
        } => write_short_to_long(out, difference_of_pic_nums_minus1, long_term_frame_idx),
        MemoryManagement::MaxLongTerm {
            max_long_term_frame_idx_plus1,
        } => write_two(out, 4, max_long_term_frame_idx_plus1),
        MemoryManagement::AllUnused => write_ue(out, 5),
        MemoryManagement::CurrentToLongTerm {
            long_term_frame_idx,
        } => write_two(out, 6, long_term_frame_idx),
    }
}

/// The operation 3.
fn write_short_to_long<B: BitSink>(out: &mut B, difference: u32, index: u32) -> Result<(), Memory>
    requires difference { difference ≤ 4294967294 }
    requires index { index ≤ 4294967294 }
    ensures { Appends (B.bits out.old) (B.bits out.new) (ue 3 ++ (ue difference ++ ue index)) result }
{
    write_ue(out, 3)?;
    write_two(out, difference, index)
}

fn write_each<B: BitSink>(out: &mut B, operations: &[MemoryManagement]) -> Result<(), Memory>
    requires { AllByRecursion IsOperation operations.now }
    ensures { Appends (B.bits out.old) (B.bits out.new) (flat_map operation_text operations.now) result }
{
    for operation in operations {
        write_operation(out, *operation)?;
    }
    Ok(())
}

/// Operations, and the number 0 behind them.
fn write_operations<B: BitSink>(out: &mut B, operations: &[MemoryManagement]) -> Result<(), Memory>
    requires { AllByRecursion IsOperation operations.now }
    ensures { Appends (B.bits out.old) (B.bits out.new) (operations_text operations.now) result }
{
    write_each(out, operations)?;
    write_ue(out, 0)
}

/// The operations where they stand.
fn write_operations_when<B: BitSink>(
    out: &mut B,
    present: bool,
    operations: &[MemoryManagement],
) -> Result<(), Memory>
    requires { IsWhen present [] (λ operations. AllByRecursion IsOperation operations) operations.now }
    ensures { Appends (B.bits out.old) (B.bits out.new) (when_text present operations_text operations.now) result }
{
    if !present {
        return Ok(());
    }
    write_operations(out, operations)
}

/// dec_ref_pic_marking (7.3.3.3).
pub fn write_marking<B: BitSink>(out: &mut B, h: &Header) -> Result<(), Memory>
    requires { MarkingFits h.now.nal (marking_of h.now) }
    ensures { Appends (B.bits out.old) (B.bits out.new) (marking_text h.now.nal (marking_of h.now)) result }
{
    let marks_idr = is_idr_reference(h.nal);
    let marks_other = is_other_reference(h.nal);
    write_flag_when(out, marks_idr, h.no_output_of_prior_pics_flag)?;
    write_flag_when(out, marks_idr, h.long_term_reference_flag)?;
    write_flag_when(out, marks_other, h.adaptive_ref_pic_marking_mode_flag)?;
    write_operations_when(
        out,
        h.adaptive_ref_pic_marking_mode_flag,
        h.memory_management_control_operation.as_slice(),
    )
}
