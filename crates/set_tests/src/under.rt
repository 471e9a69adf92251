//! Sets for headers, and some headers, put together bit by bit.
use param_sets::{Sets, read_pps, read_sps};
use std::alloc::Global;
use std::test::Fail;

/// Main, one macroblock, with picture order counts of type 0.
pub const MAIN: [u8; 5] = [0x4D, 0x00, 0x0A, 0xF4, 0xF2];

/// The same with picture order counts of type 1, and of type 2.
pub const CYCLIC: [u8; 6] = [0x4D, 0x00, 0x0A, 0xD3, 0xA7, 0x90];

pub const UNORDERED: [u8; 5] = [0x4D, 0x40, 0x0A, 0xDA, 0x79];

/// With fields, and with macroblock-adaptive frames, each of one pair.
pub const FIELDS: [u8; 6] = [0x4D, 0x00, 0x0A, 0xD9, 0x59, 0x20];

pub const ADAPTIVE: [u8; 6] = [0x4D, 0x00, 0x0A, 0xD9, 0x5B, 0x20];

/// CAVLC, with no element of the deblocking filter.
pub const PLAIN: [u8; 3] = [0xCE, 0x38, 0x80];

/// CAVLC, pic_init_qp_minus26 -3, with those elements and delta_pic_order_cnt_bottom.
pub const FULL: [u8; 3] = [0xDE, 0x0F, 0xC8];

/// CABAC.
pub const CABAC: [u8; 3] = [0xEE, 0x38, 0x80];

/// weighted_pred_flag 1 and weighted_bipred_idc 1, with 2 references of list 0 by default; 1 and 0; 1 and 2.
pub const WEIGHTED: [u8; 3] = [0xCA, 0xDE, 0x20];

pub const WEIGHTED_P: [u8; 3] = [0xCF, 0x38, 0x80];

pub const IMPLICIT_B: [u8; 3] = [0xCF, 0xB8, 0x80];

/// 17 references by default, of list 0 and of list 1.
pub const MANY_L0: [u8; 4] = [0xC8, 0x46, 0x38, 0x80];

pub const MANY_L1: [u8; 4] = [0xCC, 0x22, 0x38, 0x80];

/// P and B slices, made bit by bit. Behind each there is a 1 and zero bits.
pub const WEIGHTED_TEXT: [u8; 9] = [0xE2, 0x18, 0xB0, 0x08, 0x08, 0x0F, 0xE2, 0xA4, 0x3B];

pub const MODIFIED_TEXT: [u8; 5] = [0xA8, 0xAB, 0xD8, 0x82, 0x1C];

/// These two sets.
pub fn sets(alloc: Global, sps: &[u8], pps: &[u8]) -> Result<Sets, Fail> {
    let mut sets = Sets::new(alloc);
    sets.put_sps(read_sps(alloc, sps)?)?;
    sets.put_pps(read_pps(alloc, pps)?)?;
    Ok(sets)
}
