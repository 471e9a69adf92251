ghost use Rattle.std.specs.Prelude.{◌≡◌, ◌<◌, ◌≤◌, Some, slice_get, slice_set};
ghost use Rattle.cabac_contexts.specs.Initial.{pre_state, start_of, starting_states};
ghost use Rattle.cabac_contexts.specs.States.{HasStates, state_in};

use cabac_engine::Cell;
use init_table::InitTable;
use std::marker::Model;

/// The 460 context variables (ctxIdx 0 to 459) of a slice.
#[derive(Drop)]
pub struct Contexts {
    cells: [Cell; 460],
}

impl Model for Contexts {
    ghost use Rattle.std.specs.Prelude.{ℕ, Bool, List, map};
    ghost use Rattle.cabac_contexts.specs.States.{state_in};

    ghost Value = { List (ℕ × Bool) };

    ghost view = { λ c. map state_in c.cells };
}

impl Contexts {
    /// The contexts as they start (9.3.1.1): from the pairs of a column, where `qp` is SliceQP.
    pub fn start(init: &InitTable, qp: u8, column: u8) -> Contexts
        requires qp { qp ≤ 51 }
        requires column { column < 4 }
        ensures { HasStates (starting_states init.now qp column) result }
    {
        let mut cells = [Cell { p: 0, mps: true }; 460];
        for ctx in 0u16..460 {
            cells[usize::from(ctx)] = start_cell(init.pair(ctx, column), qp);
        }
        Contexts { cells }
    }

    /// The cell of a context.
    #[inline(always)]
    pub fn cell(&self, ctx: u16) -> Cell
        requires { ctx < 460 }
        ensures { slice_get self.now ctx ≡ Some (state_in result) }
    {
        self.cells[usize::from(ctx)]
    }

    /// Puts the cell of a context.
    #[inline(always)]
    pub fn set_cell(&mut self, ctx: u16, cell: Cell)
        requires { ctx < 460 }
        ensures { self.new ≡ slice_set self.old ctx (state_in cell) }
    {
        self.cells[usize::from(ctx)] = cell;
    }
}

/// The cell of a context as it starts from its pair (m, n).
fn start_cell(pair: (i8, i8), qp: u8) -> Cell
    requires { qp ≤ 51 }
    ensures { state_in result ≡ start_of pair qp }
{
    let state = pre_ctx_state(pair, qp);
    if state < 64 {
        return Cell {
            p: 63 - state,
            mps: false,
        };
    }
    Cell {
        p: state - 64,
        mps: true,
    }
}

/// preCtxState of a pair (m, n).
fn pre_ctx_state(pair: (i8, i8), qp: u8) -> u8
    requires { qp ≤ 51 }
    ensures value { result ≡ pre_state pair qp }
    ensures low { 1 ≤ result }
    ensures high { result ≤ 126 }
{
    let (m, n) = pair;
    let product = i32::from(m) * i32::from(qp);
    ((product >> 4) + i32::from(n)).clamp(1, 126) as u8
}
