// Slices read and written as lists of macroblocks.
use h264_types::{Case, Layer, Mb, MbKind, valid};
use init_table::InitTable;
use param_sets::{Sets, read_pps, read_sps};
use slice_header::shape;
use slice_rewrite::{
    FixedInit, How, InitPick, RewriteFault, Tries, Written, read_slice, recode_slice, write_slice,
};
use std::alloc::Global;
use std::test::Fail;

/// A unit of a slice: the payloads of the sets that it names, its header byte and its payload.
#[derive(Clone, Copy)]
struct Unit {
    sps: &'static [u8],
    pps: &'static [u8],
    header: u8,
    payload: &'static [u8],
}

/// Main, one macroblock: an IDR slice of Intra_16x16 with prediction mode 2 and without levels.
const INTRA: Unit = Unit {
    sps: &[0x4D, 0x40, 0x0A, 0xDA, 0x79],
    pps: &[0xCE, 0x38, 0x80],
    header: 0x65,
    payload: &[0x88, 0x84, 0x93, 0xC0],
};

/// The same slice in CABAC, with the table `flat`.
const INTRA_IN_CABAC: Unit = Unit {
    pps: &[0xEE, 0x38, 0x80],
    payload: &[0x88, 0x84, 0xFF, 0x75, 0xFF],
    ..INTRA
};

/// It with a level of 2065 at the first place of its DC levels.
const GREATER_LEVEL: [u8; 10] = [0x88, 0x84, 0xFF, 0x74, 0, 0x0E, 0x6E, 0x32, 0x65, 8];

/// A P slice of a skipped macroblock under the same sets.
const SKIPPED: Unit = Unit {
    header: 1,
    payload: &[0x9A, 0x25, 0x40],
    ..INTRA
};

/// High, fields of four by two macroblocks, with the 8x8 transform: a slice of a bottom field with 32 active references,
/// of one skipped macroblock, that is no reference.
const FIELD: Unit = Unit {
    sps: &[0x64, 0, 0x14, 0xAC, 0xCA, 0xC4, 0x44, 0x80],
    pps: &[0xCE, 0x3C, 0xB0],
    header: 1,
    payload: &[0xE3, 0x82, 0xC1, 2, 0x94],
};

/// The same slice with P_8x8, of which each quarter has parts of another size.
const FIELD_8X8: [u8; 22] = [
    0xE3, 0x82, 0xC1, 2, 0xA4, 0xA6, 0x40, 0x41, 0x4F, 0x4C, 0x85, 0x31, 0xC4, 9, 0x14, 0x2C, 0x60,
    0xD1, 0xC3, 0xC2, 1, 0x1C,
];

/// The vector differences of its blocks in x, and in y.
const MVD_X: [i32; 16] = [0, 0, 0, 0, 1, 1, 2, 2, 3, 4, 3, 4, 5, 6, 7, 8];

const MVD_Y: [i32; 16] = [0, 0, 0, 0, -1, -1, -2, -2, -3, -4, -3, -4, -5, -6, -7, -8];

fn sets_of(alloc: Global, unit: &Unit) -> Result<Sets, Fail> {
    let mut sets = Sets::new(alloc);
    sets.put_sps(read_sps(alloc, unit.sps)?)?;
    sets.put_pps(read_pps(alloc, unit.pps)?)?;
    Ok(sets)
}

// What is written in a layer for a slice with this macroblock in place of its own, if it is one of the slice's, which isn't of an
// MBAFF frame.
fn written_with(
    alloc: Global,
    sets: &Sets,
    init: &InitTable,
    unit: &Unit,
    mb: &Mb,
    to: Layer,
) -> Result<Option<Vec<u8>>, RewriteFault> {
    let mut slice = read_slice(alloc, sets, init, unit.header, unit.payload)?;
    slice.mbs = [*mb].to_vec(alloc)?;
    let shape = shape(sets, &slice.header);
    if shape.mbaff || !valid(&shape, slice.mbs.as_slice()) {
        return Ok(None);
    }
    let how = How {
        to,
        number: 0,
        idc: 0,
    };
    Ok(Some(write_slice(alloc, sets, init, &slice, how)?))
}

// Whether this payload is read as a slice of this macroblock alone.
fn is_read_as(
    alloc: Global,
    sets: &Sets,
    init: &InitTable,
    header: u8,
    payload: &[u8],
    mb: &Mb,
) -> Result<bool, RewriteFault> {
    let slice = read_slice(alloc, sets, init, header, payload)?;
    Ok(slice.mbs.as_slice() == [*mb].as_slice())
}

// Whether a slice is written so for a layer, where pic_parameter_set_id is 1: 010, where it was 1.
fn takes_another_number(alloc: Global, unit: &Unit, to: Layer, due: &[u8]) -> Result<bool, Fail> {
    let sets = sets_of(alloc, unit)?;
    let init = InitTable::of("flat")?;
    let mut pick = FixedInit(0);
    let again = recode_slice(
        alloc,
        &sets,
        &init,
        unit.header,
        unit.payload,
        to,
        1,
        &mut pick,
    )?;
    Ok(again.payload.as_slice() == due && again.macroblocks == 1)
}

/// A pick that tries all numbers and chooses 2, and keeps what it was asked last, and how often.
#[derive(Drop)]
struct Greatest {
    lengths: [u64; 3],
    asked: u32,
}

impl InitPick for Greatest {
    ghost use Rattle.std.specs.Prelude.{◌≡◌};
    ghost use Rattle.slice_rewrite.specs.declared.pick.Tries.TheVariants.{All};

    ghost tried = { λ pick. All };

    ghost step = { λ old lengths answer new. answer ≡ 2 };

    fn tries(&self) -> Tries {
        Tries::All
    }

    fn choose(&mut self, lengths: &[u64; 3]) -> u8 {
        self.lengths = *lengths;
        self.asked = self.asked.saturating_add(1);
        2
    }
}

// Writes a slice under the number of a pick.
fn picked(alloc: Global, unit: &Unit, to: Layer, pick: &mut Greatest) -> Result<Written, Fail> {
    let sets = sets_of(alloc, unit)?;
    let init = InitTable::of("flat")?;
    let written = recode_slice(alloc, &sets, &init, unit.header, unit.payload, to, 0, pick)?;
    Ok(written)
}

// Whether a pick of all numbers is asked once about a P slice that CABAC is wanted for, with the lengths of its three units, and
// about no other slice.
fn is_asked_where_a_number_stands(alloc: Global) -> Result<bool, Fail> {
    let mut pick = Greatest {
        lengths: [0; 3],
        asked: 0,
    };
    let intra = picked(alloc, &INTRA, Layer::Cabac, &mut pick)?;
    let same = picked(alloc, &SKIPPED, Layer::Cavlc, &mut pick)?;
    let never = pick.asked == 0;
    let greatest = picked(alloc, &SKIPPED, Layer::Cabac, &mut pick)?;
    Ok(
        never
            && intra.payload.as_slice() == INTRA_IN_CABAC.payload
            && same.payload.as_slice() == SKIPPED.payload
            && greatest.payload.as_slice() == [0x9A, 0x23, 0xFF, 0x86, 0x80].as_slice()
            && pick.asked == 1
            && pick.lengths == [5, 6, 6],
    )
}

// Whether the slice stops at a level of 2065, which needs a level_prefix above 15, and has one of 2064.
fn is_bound_in_main(alloc: Global) -> Result<bool, Fail> {
    let sets = sets_of(alloc, &INTRA)?;
    let init = InitTable::of("flat")?;
    let mut mb = Mb::without_elements(MbKind::Intra(3));
    mb.dc[0] = 2065;
    let stopped = written_with(alloc, &sets, &init, &INTRA, &mb, Layer::Cavlc);
    mb.dc[0] = 2064;
    match written_with(alloc, &sets, &init, &INTRA, &mb, Layer::Cavlc)? {
        Some(payload) => Ok(
            matches!(stopped, Err(RewriteFault::Stop(Case::Level, 0)))
                && is_read_as(alloc, &sets, &init, INTRA.header, payload.as_slice(), &mb)?,
        ),
        None => Ok(false),
    }
}

// Whether a level of 2065 is written in CABAC, and read again.
fn has_greater_levels_in_cabac(alloc: Global) -> Result<bool, Fail> {
    let unit = INTRA_IN_CABAC;
    let sets = sets_of(alloc, &unit)?;
    let init = InitTable::of("flat")?;
    let mut mb = Mb::without_elements(MbKind::Intra(3));
    mb.dc[0] = 2065;
    match written_with(alloc, &sets, &init, &unit, &mb, Layer::Cabac)? {
        Some(payload) => Ok(
            payload.as_slice() == GREATER_LEVEL.as_slice()
                && is_read_as(alloc, &sets, &init, unit.header, payload.as_slice(), &mb)?,
        ),
        None => Ok(false),
    }
}

// Whether the field is written with P_8x8 as it is, and read again.
fn has_all_parts(alloc: Global) -> Result<bool, Fail> {
    let sets = sets_of(alloc, &FIELD)?;
    let init = InitTable::of("flat")?;
    let mut mb = Mb::without_elements(MbKind::P(3));
    mb.subs = [0, 1, 2, 3];
    mb.refs[0] = [31, 0, 1, 2];
    for n in 0..16usize {
        mb.mvd[0][n] = [MVD_X[n], MVD_Y[n]];
    }
    match written_with(alloc, &sets, &init, &FIELD, &mb, Layer::Cavlc)? {
        Some(payload) => Ok(
            payload.as_slice() == FIELD_8X8.as_slice()
                && is_read_as(alloc, &sets, &init, FIELD.header, payload.as_slice(), &mb)?,
        ),
        None => Ok(false),
    }
}

#[test]
fn slices_are_written(rt: HostRuntime) -> Result<(), Fail> {
    let alloc = rt.alloc();
    let cavlc = [0x88, 0x41, 0x24, 0xF0];
    let cabac = [0x88, 0x41, 0x3F, 0x75, 0xFF];
    for unit in &[INTRA, INTRA_IN_CABAC] {
        assert!(rt; takes_another_number(alloc, unit, Layer::Cavlc, &cavlc)?);
        assert!(rt; takes_another_number(alloc, unit, Layer::Cabac, &cabac)?);
    }
    assert!(rt; is_bound_in_main(alloc)?);
    assert!(rt; has_greater_levels_in_cabac(alloc)?);
    assert!(rt; has_all_parts(alloc)?);
    assert!(rt; is_asked_where_a_number_stands(alloc)?);
    Ok(())
}
