//! Vector differences and changes of QP as bins (9.3.2.3, 9.3.2.7).
use crate::bins::{Bins, Kind};
use Kind::{Bypass, Context};
use binarisation::{
    read_mvd_x, read_mvd_y, read_qp_delta, write_mvd_x, write_mvd_y, write_qp_delta, write_unary,
};
use std::test::Fail;

/// The difference 10: nine ones, 1 as an Exp-Golomb code of order 3, and the sign.
static TEN: [(Kind, bool); 14] = [
    (Context(41), true),
    (Context(43), true),
    (Context(44), true),
    (Context(45), true),
    (Context(46), true),
    (Context(46), true),
    (Context(46), true),
    (Context(46), true),
    (Context(46), true),
    (Bypass, false),
    (Bypass, false),
    (Bypass, false),
    (Bypass, true),
    (Bypass, false),
];

static MINUS_ONE: [(Kind, bool); 3] = [(Context(49), true), (Context(50), false), (Bypass, true)];

#[test]
fn vector_differences(rt: HostRuntime) -> Result<(), Fail> {
    let mut bins = Bins::new(rt.alloc());
    write_mvd_x(&mut bins, 1, 10)?;
    assert!(rt; bins.is_list(&TEN));
    let mut bins = bins.again();
    assert!(rt; read_mvd_x(&mut bins, 1) == Some(10) && bins.is_read());
    let mut bins = Bins::new(rt.alloc());
    write_mvd_y(&mut bins, 2, -1)?;
    assert!(rt; bins.is_list(&MINUS_ONE));
    assert!(rt; read_mvd_y(&mut bins.again(), 2) == Some(-1));
    Ok(())
}

#[test]
fn changes_of_qp(rt: HostRuntime) -> Result<(), Fail> {
    let mut bins = Bins::new(rt.alloc());
    write_qp_delta(&mut bins, 1, -26)?;
    // 52 ones and a zero
    assert!(rt; bins.has_bits("11111111111111111111111111111111111111111111111111110"));
    assert!(rt; bins.begins_and_ends(&[(Context(61), true)], &[(Context(63), false)]));
    assert!(rt; read_qp_delta(&mut bins.again(), 1) == Some(-26));
    // 51 ones would be 26, and 53 would be 27
    for count in [51u8, 53] {
        let mut bins = Bins::new(rt.alloc());
        write_unary(&mut bins, &[60, 62, 63, 63, 63], 53, count)?;
        assert!(rt; read_qp_delta(&mut bins.again(), 0).is_none());
    }
    Ok(())
}
