//! Runs of skipped macroblocks (ITU-T H.264, 7.3.4).
ghost use Rattle.std.specs.Prelude.{◌≤◌, length};
ghost use Rattle.bit_texts.specs.Cursor.{cursor};
ghost use Rattle.bit_texts.specs.Readings.{Gives};
ghost use Rattle.bit_texts.specs.Texts.{Appends};
ghost use Rattle.cavlc_syntax.specs.Reading.{run_at};
ghost use Rattle.cavlc_syntax.specs.SliceText.{run_text, last_run_text};

use exp_golomb::{BitSink, BitSource, read_ue, write_ue};
use h264_types::SliceKind;
use std::alloc::AllocError as Memory;

/// How many skipped macroblocks come next: as many as are left of an mb_skip_run that was read, else the mb_skip_run that
/// stands here. I slices have none. None: no mb_skip_run of at most `room` stands here.
#[tactic(auto, unfolding(crate::specs::Reading::run_at))]
pub fn read_run<B: BitSource>(
    bits: &mut B,
    kind: SliceKind,
    room: u32,
    left: Option<u32>,
) -> Option<u32>
    requires { room ≤ 4294967294 }
    ensures { Gives result (cursor (length (B.taken bits.new)) (B.left bits.new)) (run_at kind room left (cursor (length (B.taken bits.old)) (B.left bits.old))) }
{
    match (left, kind) {
        (Some(left), _) => Some(left),
        (None, SliceKind::I) => Some(0),
        (None, SliceKind::P | SliceKind::B) => read_ue(bits, room),
    }
}

/// Appends mb_skip_run. I slices have none.
pub fn write_run<B: BitSink>(bits: &mut B, kind: SliceKind, run: u32) -> Result<(), Memory>
    requires { run ≤ 4294967294 }
    ensures { Appends (B.bits bits.old) (B.bits bits.new) (run_text kind run) result }
{
    match kind {
        SliceKind::I => Ok(()),
        SliceKind::P | SliceKind::B => write_ue(bits, run),
    }
}

/// Appends mb_skip_run of the skipped macroblocks that end a slice, where there are some.
pub fn write_last_run<B: BitSink>(bits: &mut B, kind: SliceKind, run: u32) -> Result<(), Memory>
    requires { run ≤ 4294967294 }
    ensures { Appends (B.bits bits.old) (B.bits bits.new) (last_run_text kind run) result }
{
    if run == 0 {
        return Ok(());
    }
    write_run(bits, kind, run)
}
