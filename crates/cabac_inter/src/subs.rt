//! sub_mb_type (ITU-T H.264, 7.3.5.2).
ghost use Rattle.std.specs.Prelude.{◌≡◌, ◌≤◌, All, length, option_map, false, true, OnOk, OnSome, OnErr};
ghost use Rattle.binarisation.specs.BinString.{Reads, Writes};
ghost use Rattle.h264_types.specs.Kind.{has_sub_macroblocks};
ghost use Rattle.h264_types.specs.Valid.{sub_bound};
ghost use Rattle.cabac_inter.specs.InterPrediction as inter;
ghost use Rattle.cabac_inter.specs.Stages.{typed, with_subs};

use binarisation::{read_sub_b, read_sub_p, write_sub_b, write_sub_p};
use cabac_engine::{BinSink, BinSource};
use h264_types::{Mb, MbKind};
use std::alloc::AllocError as Memory;

/// Reads the sub_mb_type of a quarter.
fn read_sub<S: BinSource>(s: &mut S, kind: MbKind) -> Option<u8>
    requires going { S.over s.old ≡ false }
    ensures reads { Reads S.step (inter.sub_type kind) result s.old s.new }
    ensures going { OnSome result (S.over s.new ≡ false) }
{
    match kind {
        MbKind::P(_) => read_sub_p(s),
        MbKind::B(_) => read_sub_b(s),
        _ => None,
    }
}

/// Reads the four sub_mb_type of a macroblock whose type stands, where they are sent, and else puts 0.
pub fn read_subs<S: BinSource>(s: &mut S, mb: &mut Mb) -> Option<()>
    requires going { S.over s.old ≡ false }
    ensures reads { Reads S.step (inter.subs mb.old) (option_map (λ _. mb.new) result) s.old s.new }
    ensures going { OnSome result (S.over s.new ≡ false) }
    ensures others { mb.new ≡ record mb.old { subs = mb.new.subs } }
{
    if !mb.kind.has_sub_macroblocks() {
        mb.subs = [0; 4];
        return Some(());
    }
    for q in 0..4usize {
        mb.subs[q] = read_sub(s, mb.kind)?;
    }
    Some(())
}

/// Writes the sub_mb_type of a quarter.
fn write_sub<S: BinSink>(s: &mut S, kind: MbKind, sub: u8) -> Result<(), Memory>
    requires going { S.over s.old ≡ false }
    requires kind { has_sub_macroblocks kind ≡ true }
    requires sub { sub ≤ sub_bound kind }
    ensures writes { OnOk result (Writes S.step (inter.sub_type kind) sub s.old s.new) }
    ensures going { OnOk result (S.over s.new ≡ false) }
    ensures err { OnErr result (S.over s.new ≡ true) }
{
    match kind {
        MbKind::P(_) => write_sub_p(s, sub),
        MbKind::B(_) => write_sub_b(s, sub),
        _ => unreachable!(),
    }
}

/// Writes the four sub_mb_type, where they are sent.
pub fn write_subs<S: BinSink>(s: &mut S, mb: &Mb) -> Result<(), Memory>
    requires going { S.over s.old ≡ false }
    requires sizes { length mb.now.subs ≡ 4 }
    requires subs { All (λ sub. sub ≤ sub_bound mb.now.kind) mb.now.subs }
    ensures writes { OnOk result (Writes S.step (inter.subs (typed mb.now)) (with_subs mb.now) s.old s.new) }
    ensures going { OnOk result (S.over s.new ≡ false) }
    ensures err { OnErr result (S.over s.new ≡ true) }
{
    if !mb.kind.has_sub_macroblocks() {
        return Ok(());
    }
    for q in 0..4usize {
        write_sub(s, mb.kind, mb.subs[q])?;
    }
    Ok(())
}
