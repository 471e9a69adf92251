//! Modifications of reference picture lists and tables of prediction weights, put together bit by bit.
use crate::payload::payload_of;
use exp_golomb::{BitVec, SliceBits};
use ref_pic_lists::{
    ChromaWeights, EntryWeights, PicNumModification, Weight, read_modification, read_weights,
    write_modification, write_weights,
};
use std::alloc::Global;
use std::test::Fail;

/// Made bit by bit: flag 0; no operation; 0 of 0, 1 of 3 and 2 of 7; 2 of 2^32 - 2.
static MODIFICATIONS: [&[u8]; 4] = [
    &[0x40],
    &[0x92],
    &[0xE8, 0x8C, 0x41, 0x20],
    &[0xB0, 0x00, 0x00, 0x00, 0x1F, 0xFF, 0xFF, 0xFF, 0xE4, 0x80],
];

fn modification_comes_back(alloc: Global, payload: &[u8]) -> Result<bool, Fail> {
    let modification = read_modification(alloc, &mut SliceBits::new(payload))?;
    let mut out = BitVec::new(alloc);
    write_modification(&mut out, &modification)?;
    Ok(payload_of(alloc, out)?.as_slice() == payload)
}

#[test]
fn modifications_come_back(rt: HostRuntime) -> Result<(), Fail> {
    for payload in &MODIFICATIONS {
        assert!(rt; modification_comes_back(rt.alloc(), payload)?);
    }
    Ok(())
}

/// A P slice with one reference, all its weights there; a B slice with two references and one.
const LEAST_AND_MOST: [u8; 8] = [0x10, 0x68, 0x04, 0x04, 0x07, 0xF5, 0x32, 0x60];

const BOTH_LISTS: [u8; 10] = [0x31, 0xDC, 0xC7, 0x81, 0x00, 0xA8, 0x8D, 0x8A, 0x18, 0x36];

static WEIGHTS: [(&[u8], u8, Option<u8>); 3] = [
    (&[0xC8], 1, None),
    (&LEAST_AND_MOST, 1, None),
    (&BOTH_LISTS, 2, Some(1)),
];

fn table_comes_back(alloc: Global, payload: &[u8], l0: u8, l1: Option<u8>) -> Result<bool, Fail> {
    let table = read_weights(alloc, &mut SliceBits::new(payload), l0, l1)?;
    let mut out = BitVec::new(alloc);
    write_weights(&mut out, &table)?;
    Ok(payload_of(alloc, out)?.as_slice() == payload)
}

#[test]
fn weights_come_back(rt: HostRuntime) -> Result<(), Fail> {
    for (payload, l0, l1) in &WEIGHTS {
        assert!(rt; table_comes_back(rt.alloc(), payload, *l0, *l1)?);
    }
    Ok(())
}

static OPERATIONS: [PicNumModification; 3] = [
    PicNumModification::Subtract {
        abs_diff_pic_num_minus1: 0,
    },
    PicNumModification::Add {
        abs_diff_pic_num_minus1: 3,
    },
    PicNumModification::LongTerm {
        long_term_pic_num: 7,
    },
];

#[test]
fn operations_of_a_modification(rt: HostRuntime) -> Result<(), Fail> {
    let mut bits = SliceBits::new(MODIFICATIONS[2]);
    let modification = read_modification(rt.alloc(), &mut bits)?;
    assert!(rt; modification.operations.as_slice() == OPERATIONS.as_slice());
    Ok(())
}

static ENTRIES: [EntryWeights; 1] = [EntryWeights {
    luma: Some(Weight {
        weight: -128,
        offset: 127,
    }),
    chroma: Some(ChromaWeights {
        cb: Weight {
            weight: 1,
            offset: -1,
        },
        cr: Weight {
            weight: 2,
            offset: 0,
        },
    }),
}];

#[test]
fn entries_of_a_table(rt: HostRuntime) -> Result<(), Fail> {
    let mut bits = SliceBits::new(&LEAST_AND_MOST);
    let table = read_weights(rt.alloc(), &mut bits, 1, None)?;
    assert!(rt; table.list_0.as_slice() == ENTRIES.as_slice());
    Ok(())
}
