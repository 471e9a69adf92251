ghost use Rattle.std.specs.Prelude.{◌≡◌, ◌≤◌, ◌++◌, []};
ghost use Rattle.std.specs.List.{flat_map, AllByRecursion};
ghost use Rattle.bit_texts.specs.Texts.{Appends, when_text, IsWhen};
ghost use Rattle.exp_golomb.specs.Code.{ue};
ghost use Rattle.ref_pic_lists.specs.RefPicListModification.{operation_text, operations_text, modification_text, IsOperation, ModificationFits};

use crate::modification::{ListModification, PicNumModification};
use crate::write_element::write_flag;
use exp_golomb::{BitSink, write_ue};
use std::alloc::AllocError as Memory;

/// A number and its operand.
fn write_two<B: BitSink>(out: &mut B, first: u32, second: u32) -> Result<(), Memory>
    requires first { first ≤ 4294967294 }
    requires second { second ≤ 4294967294 }
    ensures { Appends (B.bits out.old) (B.bits out.new) (ue first ++ ue second) result }
{
    write_ue(out, first)?;
    write_ue(out, second)
}

/// An operation with its operand.
fn write_operation<B: BitSink>(out: &mut B, operation: PicNumModification) -> Result<(), Memory>
    requires { IsOperation operation }
    ensures { Appends (B.bits out.old) (B.bits out.new) (operation_text operation) result }
{
    match operation {
        PicNumModification::Subtract {
            abs_diff_pic_num_minus1,
        } => write_two(out, 0, abs_diff_pic_num_minus1),
        PicNumModification::Add {
            abs_diff_pic_num_minus1,
        } => write_two(out, 1, abs_diff_pic_num_minus1),
        PicNumModification::LongTerm { long_term_pic_num } => write_two(out, 2, long_term_pic_num),
    }
}

fn write_each<B: BitSink>(out: &mut B, operations: &[PicNumModification]) -> Result<(), Memory>
    requires { AllByRecursion IsOperation operations.now }
    ensures { Appends (B.bits out.old) (B.bits out.new) (flat_map operation_text operations.now) result }
{
    for operation in operations {
        write_operation(out, *operation)?;
    }
    Ok(())
}

/// Operations, and the number 3 behind them.
fn write_operations<B: BitSink>(
    out: &mut B,
    operations: &[PicNumModification],
) -> Result<(), Memory>
    requires { AllByRecursion IsOperation operations.now }
    ensures { Appends (B.bits out.old) (B.bits out.new) (operations_text operations.now) result }
{
    write_each(out, operations)?;
    write_ue(out, 3)
}

/// The operations where they stand.
fn write_operations_when<B: BitSink>(
    out: &mut B,
    present: bool,
    operations: &[PicNumModification],
) -> Result<(), Memory>
    requires { IsWhen present [] (λ operations. AllByRecursion IsOperation operations) operations.now }
    ensures { Appends (B.bits out.old) (B.bits out.new) (when_text present operations_text operations.now) result }
{
    if !present {
        return Ok(());
    }
    write_operations(out, operations)
}

/// ref_pic_list_modification (7.3.3.1) of one list: appends its text. Want of memory leaves a front of it appended.
pub fn write_modification<B: BitSink>(out: &mut B, m: &ListModification) -> Result<(), Memory>
    requires { ModificationFits m.now }
    ensures { Appends (B.bits out.old) (B.bits out.new) (modification_text m.now) result }
{
    write_flag(out, m.flag)?;
    write_operations_when(out, m.flag, m.operations.as_slice())
}
