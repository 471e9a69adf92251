//! One macroblock (ITU-T H.264, 7.3.4 and 7.3.5).
ghost use Rattle.std.specs.Prelude.{◌≡◌, option_map, false, true, IfSome, OnOk, OnSome, OnErr, List};
ghost use Rattle.binarisation.specs.BinString.{Reads, Writes};
ghost use Rattle.h264_types.specs.Slice.{IsInPicture};
ghost use Rattle.h264_types.specs.SliceShape.{IsSliceShape};
ghost use Rattle.h264_types.specs.Kind.{is_intra, is_skip, is_i_pcm};
ghost use Rattle.h264_types.specs.Valid.{IsMacroblock};
ghost use Rattle.h264_types.specs.declared.macroblock.MbKind.TheVariants.{Skip};
ghost use Rattle.cabac_contexts.specs.Terms.{IsReadAt};
ghost use Rattle.h264_types.specs.declared.macroblock.Mb.{Mb};
ghost use Rattle.cabac_mb_residual.specs.Levels.{IsResidual};
ghost use Rattle.cabac_macroblock.specs.MacroblockLayer as layer;
ghost use Rattle.cabac_macroblock.specs.MbType.{of_kind};

use crate::coding::{read_coding, write_coding};
use crate::mb_type::{read_skip, read_type, write_skip, write_type};
use crate::pattern::{read_pattern, write_pattern};
use crate::prediction::{read_prediction, write_prediction};
use crate::transform_size::{read_last_transform_size, write_last_transform_size};
use cabac_engine::{BinSink, BinSource};
use cabac_inter::{read_inter_prediction, write_inter_prediction};
use h264_types::{Mb, MbKind, Rows, SliceShape};
use std::alloc::AllocError as Memory;

/// Reads the elements behind mb_type of an intra macroblock other than I_PCM, which has its type and no other element.
fn read_intra_elements<S: BinSource>(
    s: &mut S,
    shape: &SliceShape,
    done: &Rows<Mb>,
    at: u32,
    mb: &mut Mb,
) -> Option<()>
    requires going { S.over s.old ≡ false }
    requires picture { IsInPicture shape.now at }
    requires none { mb.old.pattern.luma ≡ 0 }
    ensures reads { (mbs : List Mb) → IsReadAt shape.now done.now mbs at → Reads S.step (layer.intra_elements shape.now mbs at mb.old) (option_map (λ _. mb.new) result) s.old s.new }
    ensures going { OnSome result (S.over s.new ≡ false) }
    ensures kind { OnSome result (mb.new.kind ≡ mb.old.kind) }
{
    read_prediction(s, shape, done, at, mb)?;
    read_pattern(s, shape, done, at, mb)?;
    read_coding(s, shape, done, at, mb)
}

/// Reads the elements behind mb_type of a P or B macroblock, which has its type and no other element.
fn read_inter_elements<S: BinSource>(
    s: &mut S,
    shape: &SliceShape,
    done: &Rows<Mb>,
    at: u32,
    mb: &mut Mb,
) -> Option<()>
    requires going { S.over s.old ≡ false }
    requires picture { IsInPicture shape.now at }
    requires none { mb.old.pattern.luma ≡ 0 }
    ensures reads { (mbs : List Mb) → IsReadAt shape.now done.now mbs at → Reads S.step (layer.inter_elements shape.now mbs at mb.old) (option_map (λ _. mb.new) result) s.old s.new }
    ensures going { OnSome result (S.over s.new ≡ false) }
    ensures kind { OnSome result (mb.new.kind ≡ mb.old.kind) }
{
    read_inter_prediction(s, shape, done, at, mb)?;
    read_pattern(s, shape, done, at, mb)?;
    read_last_transform_size(s, shape, done, at, mb)?;
    read_coding(s, shape, done, at, mb)
}

/// Reads the elements behind mb_type of a macroblock that has its type and no other element.
fn read_elements<S: BinSource>(
    s: &mut S,
    shape: &SliceShape,
    done: &Rows<Mb>,
    at: u32,
    mb: &mut Mb,
) -> Option<()>
    requires over { S.over s.old ≡ is_i_pcm mb.old.kind }
    requires picture { IsInPicture shape.now at }
    requires none { mb.old.pattern.luma ≡ 0 }
    ensures reads { (mbs : List Mb) → IsReadAt shape.now done.now mbs at → Reads S.step (layer.elements shape.now mbs at mb.old) (option_map (λ _. mb.new) result) s.old s.new }
    ensures over { IfSome result (λ _. S.over s.new ≡ is_i_pcm mb.new.kind) }
{
    if mb.kind.is_i_pcm() {
        return Some(());
    }
    if mb.kind.is_intra() {
        read_intra_elements(s, shape, done, at, mb)
    } else {
        read_inter_elements(s, shape, done, at, mb)
    }
}

/// Reads a macroblock that isn't skipped, its mb_type first, into one that has the flag of its pair and no other element.
fn read_layer<S: BinSource>(
    s: &mut S,
    shape: &SliceShape,
    done: &Rows<Mb>,
    at: u32,
    mb: &mut Mb,
) -> Option<()>
    requires going { S.over s.old ≡ false }
    requires picture { IsInPicture shape.now at }
    requires none { mb.old ≡ of_kind mb.old.field Skip }
    ensures reads { (mbs : List Mb) → IsReadAt shape.now done.now mbs at → Reads S.step (layer.layer shape.now mbs at mb.old.field) (option_map (λ _. mb.new) result) s.old s.new }
    ensures over { IfSome result (λ _. S.over s.new ≡ is_i_pcm mb.new.kind) }
{
    mb.kind = read_type(s, shape, done, at, mb)?;
    read_elements(s, shape, done, at, mb)
}

/// Reads a macroblock, its mb_skip_flag or its mb_type first, into the one that is lent. `done` has the last two rows of the
/// slice's macroblocks, of which all before number `at` are done and none behind it, in MBAFF none behind its pair; `field` is
/// the flag of its pair, false outside MBAFF. Behind I_PCM no bin may be asked for, and its samples are left to be read. None
/// where the source ran out, or an element is out of its range; what the macroblock then holds isn't said.
pub fn read_macroblock<S: BinSource>(
    s: &mut S,
    shape: &SliceShape,
    done: &Rows<Mb>,
    at: u32,
    field: bool,
    mb: &mut Mb,
) -> Option<()>
    requires going { S.over s.old ≡ false }
    requires picture { IsInPicture shape.now at }
    ensures reads { (mbs : List Mb) → IsReadAt shape.now done.now mbs at → Reads S.step (layer.macroblock shape.now mbs at field) (option_map (λ _. mb.new) result) s.old s.new }
    ensures over { IfSome result (λ _. S.over s.new ≡ is_i_pcm mb.new.kind) }
{
    *mb = Mb::without_elements(MbKind::Skip);
    mb.field = field;
    if read_skip(s, shape, done, at, mb)? {
        return Some(());
    }
    read_layer(s, shape, done, at, mb)
}

/// Writes the elements of an intra macroblock other than I_PCM behind its mb_type.
fn write_intra_elements<S: BinSink>(
    s: &mut S,
    shape: &SliceShape,
    done: &Rows<Mb>,
    at: u32,
    mb: &Mb,
) -> Result<(), Memory>
    requires going { S.over s.old ≡ false }
    requires picture { IsInPicture shape.now at }
    requires valid { IsMacroblock shape.now mb.now }
    requires intra { is_intra mb.now.kind ≡ true }
    requires other { is_i_pcm mb.now.kind ≡ false }
    requires ref0 { mb.now.ref0 ≡ false }
    requires residual { IsResidual mb.now }
    ensures writes { (mbs : List Mb) → IsReadAt shape.now done.now mbs at → OnOk result (Writes S.step (layer.intra_elements shape.now mbs at (of_kind mb.now.field mb.now.kind)) mb.now s.old s.new) }
    ensures going { OnOk result (S.over s.new ≡ false) }
    ensures err { OnErr result (S.over s.new ≡ true) }
{
    write_prediction(s, shape, done, at, mb)?;
    write_pattern(s, shape, done, at, mb)?;
    write_coding(s, shape, done, at, mb)
}

/// Writes the elements of a P or B macroblock behind its mb_type.
fn write_inter_elements<S: BinSink>(
    s: &mut S,
    shape: &SliceShape,
    done: &Rows<Mb>,
    at: u32,
    mb: &Mb,
) -> Result<(), Memory>
    requires going { S.over s.old ≡ false }
    requires picture { IsInPicture shape.now at }
    requires shape { IsSliceShape shape.now }
    requires valid { IsMacroblock shape.now mb.now }
    requires inter { is_intra mb.now.kind ≡ false }
    requires sent { is_skip mb.now.kind ≡ false }
    requires ref0 { mb.now.ref0 ≡ false }
    requires residual { IsResidual mb.now }
    ensures writes { (mbs : List Mb) → IsReadAt shape.now done.now mbs at → OnOk result (Writes S.step (layer.inter_elements shape.now mbs at (of_kind mb.now.field mb.now.kind)) mb.now s.old s.new) }
    ensures going { OnOk result (S.over s.new ≡ false) }
    ensures err { OnErr result (S.over s.new ≡ true) }
{
    write_inter_prediction(s, shape, done, at, mb)?;
    write_pattern(s, shape, done, at, mb)?;
    write_last_transform_size(s, shape, done, at, mb)?;
    write_coding(s, shape, done, at, mb)
}

/// Writes the elements of a macroblock behind its mb_type.
fn write_elements<S: BinSink>(
    s: &mut S,
    shape: &SliceShape,
    done: &Rows<Mb>,
    at: u32,
    mb: &Mb,
) -> Result<(), Memory>
    requires over { S.over s.old ≡ is_i_pcm mb.now.kind }
    requires picture { IsInPicture shape.now at }
    requires shape { IsSliceShape shape.now }
    requires valid { IsMacroblock shape.now mb.now }
    requires sent { is_skip mb.now.kind ≡ false }
    requires ref0 { mb.now.ref0 ≡ false }
    requires residual { IsResidual mb.now }
    ensures writes { (mbs : List Mb) → IsReadAt shape.now done.now mbs at → OnOk result (Writes S.step (layer.elements shape.now mbs at (of_kind mb.now.field mb.now.kind)) (layer.without_samples mb.now) s.old s.new) }
    ensures over { OnOk result (S.over s.new ≡ is_i_pcm mb.now.kind) }
    ensures err { OnErr result (S.over s.new ≡ true) }
{
    if mb.kind.is_i_pcm() {
        return Ok(());
    }
    if mb.kind.is_intra() {
        write_intra_elements(s, shape, done, at, mb)
    } else {
        write_inter_elements(s, shape, done, at, mb)
    }
}

/// Writes a macroblock that isn't skipped, its mb_type first.
fn write_layer<S: BinSink>(
    s: &mut S,
    shape: &SliceShape,
    done: &Rows<Mb>,
    at: u32,
    mb: &Mb,
) -> Result<(), Memory>
    requires going { S.over s.old ≡ false }
    requires picture { IsInPicture shape.now at }
    requires shape { IsSliceShape shape.now }
    requires valid { IsMacroblock shape.now mb.now }
    requires sent { is_skip mb.now.kind ≡ false }
    requires ref0 { mb.now.ref0 ≡ false }
    requires residual { IsResidual mb.now }
    ensures writes { (mbs : List Mb) → IsReadAt shape.now done.now mbs at → OnOk result (Writes S.step (layer.layer shape.now mbs at mb.now.field) (layer.without_samples mb.now) s.old s.new) }
    ensures over { OnOk result (S.over s.new ≡ is_i_pcm mb.now.kind) }
    ensures err { OnErr result (S.over s.new ≡ true) }
{
    write_type(s, shape, done, at, mb)?;
    write_elements(s, shape, done, at, mb)
}

/// Writes a macroblock, as `read_macroblock` reads it. There is no P_8x8ref0 in CABAC. The samples of I_PCM are left to be
/// written behind it.
pub fn write_macroblock<S: BinSink>(
    s: &mut S,
    shape: &SliceShape,
    done: &Rows<Mb>,
    at: u32,
    mb: &Mb,
) -> Result<(), Memory>
    requires going { S.over s.old ≡ false }
    requires picture { IsInPicture shape.now at }
    requires shape { IsSliceShape shape.now }
    requires valid { IsMacroblock shape.now mb.now }
    requires ref0 { mb.now.ref0 ≡ false }
    requires residual { IsResidual mb.now }
    ensures writes { (mbs : List Mb) → IsReadAt shape.now done.now mbs at → OnOk result (Writes S.step (layer.macroblock shape.now mbs at mb.now.field) (layer.without_samples mb.now) s.old s.new) }
    ensures over { OnOk result (S.over s.new ≡ is_i_pcm mb.now.kind) }
    ensures err { OnErr result (S.over s.new ≡ true) }
{
    write_skip(s, shape, done, at, mb)?;
    if mb.kind.is_skip() {
        return Ok(());
    }
    write_layer(s, shape, done, at, mb)
}
