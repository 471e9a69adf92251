//! mvd_l0 and mvd_l1 (ITU-T H.264, 7.3.5.1, 7.3.5.2).
ghost use Rattle.std.specs.Prelude.{◌≡◌, ◌<◌, option_map, false, true, OnOk, OnSome, OnErr, List};
ghost use Rattle.binarisation.specs.BinString.{Reads, Writes};
ghost use Rattle.h264_types.specs.Sizes.{HasSizes};
ghost use Rattle.h264_types.specs.Slice.{IsInPicture};
ghost use Rattle.h264_types.specs.Valid.{IsListSent, mvd_of};
ghost use Rattle.h264_types.specs.declared.macroblock.Mb.{Mb};
ghost use Rattle.cabac_contexts.specs.Terms.{IsReadAt};
ghost use Rattle.cavlc_inter.specs.InterPrediction.{mvds_of, IsVector};
ghost use Rattle.cabac_inter.specs.InterPrediction as inter;
ghost use Rattle.cabac_inter.specs.Stages.{IsBegun};

use crate::parts::{first_block, uses};
use binarisation::{read_mvd_x, read_mvd_y, write_mvd_x, write_mvd_y};
use cabac_contexts::ctx_inc_mvd;
use cabac_engine::{BinSink, BinSource};
use h264_types::{Mb, Rows, SliceShape};
use std::alloc::AllocError as Memory;

/// Reads the vector difference of the part that begins with block n, x and then y.
fn read_sent_mvd<S: BinSource>(
    s: &mut S,
    shape: &SliceShape,
    done: &Rows<Mb>,
    at: u32,
    list: u8,
    n: u8,
    mb: &Mb,
) -> Option<[i32; 2]>
    requires going { S.over s.old ≡ false }
    requires picture { IsInPicture shape.now at }
    requires list { list < 2 }
    requires n { n < 16 }
    ensures reads { (mbs : List Mb) → IsReadAt shape.now done.now mbs at → Reads S.step (inter.sent_mvd shape.now mbs at list n mb.now) result s.old s.new }
    ensures going { OnSome result (S.over s.new ≡ false) }
{
    let across = read_mvd_x(s, ctx_inc_mvd(shape, done, at, mb.field, mb, list, n, 0))?;
    let down = read_mvd_y(s, ctx_inc_mvd(shape, done, at, mb.field, mb, list, n, 1))?;
    Some([across, down])
}

/// The vector difference of block n: read where it is sent, and else that of the first block of its part, or 0.
fn read_mvd<S: BinSource>(
    s: &mut S,
    shape: &SliceShape,
    done: &Rows<Mb>,
    at: u32,
    list: u8,
    n: u8,
    mb: &Mb,
) -> Option<[i32; 2]>
    requires going { S.over s.old ≡ false }
    requires picture { IsInPicture shape.now at }
    requires list { list < 2 }
    requires n { n < 16 }
    ensures reads { (mbs : List Mb) → IsReadAt shape.now done.now mbs at → Reads S.step (inter.mvd_of shape.now mbs at list n mb.now) result s.old s.new }
    ensures going { OnSome result (S.over s.new ≡ false) }
{
    let first = first_block(mb, n);
    if first < n {
        return Some(mb.mvd[usize::from(list)][usize::from(first)]);
    }
    if !uses(mb, list, n / 4) {
        return Some([0, 0]);
    }
    read_sent_mvd(s, shape, done, at, list, n, mb)
}

/// Reads the vector differences of a list, for a macroblock whose sub_mb_type stand.
pub fn read_mvds<S: BinSource>(
    s: &mut S,
    shape: &SliceShape,
    done: &Rows<Mb>,
    at: u32,
    list: u8,
    mb: &mut Mb,
) -> Option<()>
    requires going { S.over s.old ≡ false }
    requires picture { IsInPicture shape.now at }
    requires list { list < 2 }
    ensures reads { (mbs : List Mb) → IsReadAt shape.now done.now mbs at → Reads S.step (inter.mvds shape.now mbs at list mb.old) (option_map (λ _. mb.new) result) s.old s.new }
    ensures going { OnSome result (S.over s.new ≡ false) }
    ensures others { mb.new ≡ record mb.old { mvd = mb.new.mvd } }
{
    for n in 0..16u8 {
        let vector = read_mvd(s, shape, done, at, list, n, mb)?;
        mb.mvd[usize::from(list)][usize::from(n)] = vector;
    }
    Some(())
}

/// Writes the vector difference of the part that begins with block n, x and then y.
fn write_sent_mvd<S: BinSink>(
    s: &mut S,
    shape: &SliceShape,
    done: &Rows<Mb>,
    at: u32,
    list: u8,
    n: u8,
    mb: &Mb,
) -> Result<(), Memory>
    requires going { S.over s.old ≡ false }
    requires picture { IsInPicture shape.now at }
    requires list { list < 2 }
    requires n { n < 16 }
    requires vector { IsVector (mvd_of mb.now list n) }
    ensures writes { (mbs : List Mb) → IsReadAt shape.now done.now mbs at → OnOk result (Writes S.step (inter.sent_mvd shape.now mbs at list n mb.now) (mvd_of mb.now list n) s.old s.new) }
    ensures going { OnOk result (S.over s.new ≡ false) }
    ensures err { OnErr result (S.over s.new ≡ true) }
{
    let [across, down] = mb.mvd[usize::from(list)][usize::from(n)];
    write_mvd_x(
        s,
        ctx_inc_mvd(shape, done, at, mb.field, mb, list, n, 0),
        across,
    )?;
    write_mvd_y(
        s,
        ctx_inc_mvd(shape, done, at, mb.field, mb, list, n, 1),
        down,
    )
}

/// Writes the vector difference of block n, where it is sent.
fn write_mvd<S: BinSink>(
    s: &mut S,
    shape: &SliceShape,
    done: &Rows<Mb>,
    at: u32,
    list: u8,
    n: u8,
    mb: &Mb,
) -> Result<(), Memory>
    requires going { S.over s.old ≡ false }
    requires picture { IsInPicture shape.now at }
    requires list { list < 2 }
    requires n { n < 16 }
    requires sizes { HasSizes mb.now }
    requires sent { IsListSent shape.now mb.now list }
    ensures writes { (mbs : List Mb) → IsReadAt shape.now done.now mbs at → OnOk result (Writes S.step (inter.mvd_of shape.now mbs at list n mb.now) (mvd_of mb.now list n) s.old s.new) }
    ensures going { OnOk result (S.over s.new ≡ false) }
    ensures err { OnErr result (S.over s.new ≡ true) }
{
    if first_block(mb, n) < n || !uses(mb, list, n / 4) {
        return Ok(());
    }
    write_sent_mvd(s, shape, done, at, list, n, mb)
}

/// Writes the vector differences of a list.
pub fn write_mvds<S: BinSink>(
    s: &mut S,
    shape: &SliceShape,
    done: &Rows<Mb>,
    at: u32,
    list: u8,
    mb: &Mb,
) -> Result<(), Memory>
    requires going { S.over s.old ≡ false }
    requires picture { IsInPicture shape.now at }
    requires list { list < 2 }
    requires sizes { HasSizes mb.now }
    requires sent { IsListSent shape.now mb.now list }
    ensures writes { (mbs : List Mb) (base : Mb) → IsReadAt shape.now done.now mbs at → IsBegun mb.now base → OnOk result (Writes S.step (inter.mvds shape.now mbs at list base) (inter.with_mvds list base (mvds_of list mb.now)) s.old s.new) }
    ensures going { OnOk result (S.over s.new ≡ false) }
    ensures err { OnErr result (S.over s.new ≡ true) }
{
    for n in 0..16u8 {
        write_mvd(s, shape, done, at, list, n, mb)?;
    }
    Ok(())
}
