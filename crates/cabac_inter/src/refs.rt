//! ref_idx_l0 and ref_idx_l1 (ITU-T H.264, 7.3.5.1, 7.3.5.2).
ghost use Rattle.std.specs.Prelude.{◌≡◌, ◌<◌, ◌≤◌, option_map, false, true, OnOk, OnSome, OnErr, List};
ghost use Rattle.binarisation.specs.BinString.{Reads, Writes};
ghost use Rattle.h264_types.specs.Sizes.{HasSizes};
ghost use Rattle.h264_types.specs.Slice.{IsInPicture};
ghost use Rattle.h264_types.specs.Valid.{IsListSent, ref_at};
ghost use Rattle.h264_types.specs.declared.macroblock.Mb.{Mb};
ghost use Rattle.cabac_contexts.specs.Terms.{IsReadAt};
ghost use Rattle.cavlc_inter.specs.InterPrediction.{refs_of};
ghost use Rattle.cabac_inter.specs.InterPrediction as inter;
ghost use Rattle.cabac_inter.specs.Stages.{IsBegun};

use crate::parts::{first_quarter, uses};
use binarisation::{read_ref_idx, write_ref_idx};
use cabac_contexts::ctx_inc_ref;
use cabac_engine::{BinSink, BinSource};
use h264_types::{Mb, Rows, SliceShape};
use std::alloc::AllocError as Memory;

/// The greatest index of a list, for a field macroblock of a frame that of twice the active references.
fn greatest_ref(shape: &SliceShape, mb: &Mb, list: u8) -> u16
    requires { list < 2 }
    ensures { result ≡ inter.greatest_at shape.now mb.now list }
{
    let fields = if shape.mbaff && mb.field { 2 } else { 1 };
    (u16::from(shape.refs[usize::from(list)]) * fields).saturating_sub(1)
}

/// Whether the partition of a quarter has an index of a list.
fn has_ref(shape: &SliceShape, mb: &Mb, list: u8, q: u8) -> bool
    requires list { list < 2 }
    requires q { q < 4 }
    ensures { result ≡ inter.sends_refs shape.now mb.now list q }
{
    greatest_ref(shape, mb, list) > 0 && uses(mb, list, q)
}

/// Reads the index of the partition that begins with quarter q.
fn read_sent_ref<S: BinSource>(
    s: &mut S,
    shape: &SliceShape,
    done: &Rows<Mb>,
    at: u32,
    list: u8,
    q: u8,
    mb: &Mb,
) -> Option<u8>
    requires going { S.over s.old ≡ false }
    requires picture { IsInPicture shape.now at }
    requires list { list < 2 }
    requires q { q < 4 }
    ensures reads { (mbs : List Mb) → IsReadAt shape.now done.now mbs at → Reads S.step (inter.sent_ref shape.now mbs at list q mb.now) result s.old s.new }
    ensures going { OnSome result (S.over s.new ≡ false) }
{
    let index = read_ref_idx(s, ctx_inc_ref(shape, done, at, mb.field, mb, list, q))?;
    if u16::from(index) > greatest_ref(shape, mb, list) {
        return None;
    }
    Some(index)
}

/// The index of quarter q: read where it is sent, and else that of the first quarter of its partition, or 0.
fn read_ref<S: BinSource>(
    s: &mut S,
    shape: &SliceShape,
    done: &Rows<Mb>,
    at: u32,
    list: u8,
    q: u8,
    mb: &Mb,
) -> Option<u8>
    requires going { S.over s.old ≡ false }
    requires picture { IsInPicture shape.now at }
    requires list { list < 2 }
    requires q { q < 4 }
    ensures reads { (mbs : List Mb) → IsReadAt shape.now done.now mbs at → Reads S.step (inter.ref_of shape.now mbs at list q mb.now) result s.old s.new }
    ensures going { OnSome result (S.over s.new ≡ false) }
{
    let first = first_quarter(mb.kind, q);
    if first < q {
        return Some(mb.refs[usize::from(list)][usize::from(first)]);
    }
    if !has_ref(shape, mb, list, q) {
        return Some(0);
    }
    read_sent_ref(s, shape, done, at, list, q, mb)
}

/// Reads the indices of a list, for a macroblock whose sub_mb_type stand.
pub fn read_refs<S: BinSource>(
    s: &mut S,
    shape: &SliceShape,
    done: &Rows<Mb>,
    at: u32,
    list: u8,
    mb: &mut Mb,
) -> Option<()>
    requires going { S.over s.old ≡ false }
    requires picture { IsInPicture shape.now at }
    requires list { list < 2 }
    ensures reads { (mbs : List Mb) → IsReadAt shape.now done.now mbs at → Reads S.step (inter.refs shape.now mbs at list mb.old) (option_map (λ _. mb.new) result) s.old s.new }
    ensures going { OnSome result (S.over s.new ≡ false) }
    ensures others { mb.new ≡ record mb.old { refs = mb.new.refs } }
{
    for q in 0..4u8 {
        let index = read_ref(s, shape, done, at, list, q, mb)?;
        mb.refs[usize::from(list)][usize::from(q)] = index;
    }
    Some(())
}

/// Writes the index of quarter q, where it is sent.
fn write_ref<S: BinSink>(
    s: &mut S,
    shape: &SliceShape,
    done: &Rows<Mb>,
    at: u32,
    list: u8,
    q: u8,
    mb: &Mb,
) -> Result<(), Memory>
    requires going { S.over s.old ≡ false }
    requires picture { IsInPicture shape.now at }
    requires list { list < 2 }
    requires q { q < 4 }
    requires few { inter.greatest_at shape.now mb.now list ≤ 31 }
    requires sent { IsListSent shape.now mb.now list }
    ensures writes { (mbs : List Mb) → IsReadAt shape.now done.now mbs at → OnOk result (Writes S.step (inter.ref_of shape.now mbs at list q mb.now) (ref_at mb.now list q) s.old s.new) }
    ensures going { OnOk result (S.over s.new ≡ false) }
    ensures err { OnErr result (S.over s.new ≡ true) }
{
    if first_quarter(mb.kind, q) < q || !has_ref(shape, mb, list, q) {
        return Ok(());
    }
    let inc = ctx_inc_ref(shape, done, at, mb.field, mb, list, q);
    write_ref_idx(s, inc, mb.refs[usize::from(list)][usize::from(q)])
}

/// Writes the indices of a list.
pub fn write_refs<S: BinSink>(
    s: &mut S,
    shape: &SliceShape,
    done: &Rows<Mb>,
    at: u32,
    list: u8,
    mb: &Mb,
) -> Result<(), Memory>
    requires going { S.over s.old ≡ false }
    requires picture { IsInPicture shape.now at }
    requires list { list < 2 }
    requires few { inter.greatest_at shape.now mb.now list ≤ 31 }
    requires sizes { HasSizes mb.now }
    requires sent { IsListSent shape.now mb.now list }
    ensures writes { (mbs : List Mb) (base : Mb) → IsReadAt shape.now done.now mbs at → IsBegun mb.now base → OnOk result (Writes S.step (inter.refs shape.now mbs at list base) (inter.with_refs list base (refs_of list mb.now)) s.old s.new) }
    ensures going { OnOk result (S.over s.new ≡ false) }
    ensures err { OnErr result (S.over s.new ≡ true) }
{
    for q in 0..4u8 {
        write_ref(s, shape, done, at, list, q, mb)?;
    }
    Ok(())
}
