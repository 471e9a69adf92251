//! The context variables as they start (9.3.1.1).
use cabac_contexts::Contexts;
use init_table::InitTable;
use std::alloc::{AllocError as Memory, Global};
use std::test::Fail;

/// The table that has these four pairs for each context.
fn table(alloc: Global, pairs: &str) -> Result<Option<InitTable>, Memory> {
    let mut text = String::new(alloc);
    for _ctx in 0..460 {
        text.push_str(pairs)?;
    }
    Ok(InitTable::of(text.as_str()).ok())
}

/// A column, SliceQP, and the state that each context starts with: the shift of m * SliceQP rounds down, and preCtxState
/// stays within 1 to 126.
static STARTS: [(u8, u8, u8, bool); 7] = [
    (0, 0, 0, true),
    (0, 51, 0, true),
    (1, 26, 46, false),
    (1, 51, 15, false),
    (2, 51, 26, false),
    (2, 0, 62, true),
    (3, 30, 62, false),
];

#[test]
fn contexts_start_by_their_pairs(rt: HostRuntime) -> Result<(), Fail> {
    let Some(init) = table(rt.alloc(), "0 64 20 -15 -28 127 -128 -128 ")? else {
        return Err(Fail::from("no table"));
    };
    for (column, qp, p, mps) in &STARTS {
        assert!(rt; *qp <= 51 && *column < 4);
        let contexts = Contexts::start(&init, *qp, *column);
        let first = contexts.cell(0);
        assert!(rt; first.p == *p && first.mps == *mps);
        let last = contexts.cell(459);
        assert!(rt; last.p == *p && last.mps == *mps);
    }
    Ok(())
}
