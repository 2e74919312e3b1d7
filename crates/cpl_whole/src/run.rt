// The undivided run.
ghost use Rattle.std.specs.Prelude.{◌≡◌, [], IfOk, All};
ghost use Rattle.cpl_state.specs.States.{IsWhole};
ghost use Rattle.cpl_state.specs.CouplingStep.{state_after};
ghost use Rattle.cpl_whole.specs.Journeys.{CanTravel, HasSetOut, IsJourney};
ghost use Rattle.cpl_whole.specs.Rows.{Balances, Keeps, exchange_rows, stock_rows};

use crate::ground::ground_of;
use crate::journey::Journey;
use cpl_fixed::List;
use cpl_namelist::Names;
use cpl_plan::Plan;
use cpl_state::Whole;
use cpl_stocks::{ExchangeRow, StockRow};
use cpl_xgrid::Grid;
use std::alloc::{AllocError, Global};

/// What a run leaves: the rows of the stocks table, three for each of the states 0 to N; the rows of the exchanges table, fifteen for
/// each coupling step 1 to N; and the last state.
#[derive(Drop)]
pub struct Outcome {
    pub stocks: List<StockRow>,
    pub exchanges: List<ExchangeRow>,
    pub last: Whole,
}

// A run at its start, with memory for all its rows.
fn set_out(alloc: Global, grid: &Grid, names: &Names, start: &Whole) -> Result<Journey, AllocError>
    requires { CanTravel grid.now names.now start.now }
    ensures { IfOk result (HasSetOut grid.now start.now [] []) }
{
    let steps = names.steps as usize;
    let stocks = Vec::with_capacity(alloc, 3 * (steps + 1))?;
    let exchanges = Vec::with_capacity(alloc, 15 * steps)?;
    Journey::set_out(alloc, grid, start, stocks, exchanges)
}

// Runs from a start for all coupling steps.
fn run_on(alloc: Global, grid: &Grid, names: &Names, start: &Whole) -> Result<Journey, AllocError>
    requires { CanTravel grid.now names.now start.now }
    ensures { IfOk result (IsJourney grid.now names.now start.now names.now.steps) }
{
    let mut journey = set_out(alloc, grid, names, start)?;
    journey.run(alloc, grid, names)?;
    Ok(journey)
}

/// Runs the whole lists of a plan for all its coupling steps. It looks at no layout. After the first step it takes no memory.
pub fn run_whole(alloc: Global, plan: &Plan) -> Result<Outcome, AllocError>
    ensures stocks { IfOk result (λ out. out.stocks ≡ stock_rows plan.now.grid plan.now.names plan.now.start plan.now.names.steps) }
    ensures exchanges { IfOk result (λ out. out.exchanges ≡ exchange_rows plan.now.grid plan.now.names plan.now.start plan.now.names.steps) }
    ensures last { IfOk result (λ out. out.last ≡ state_after plan.now.names.steps plan.now.grid plan.now.names plan.now.start) }
    ensures lawful { IfOk result (λ out. IsWhole plan.now.grid out.last) }
    // No heat is lost but what leaves to space, and no water or salt at all.
    ensures keeps { IfOk result (λ out. All (Keeps plan.now.grid plan.now.start) out.stocks) }
    // Nothing is lost at an exchange.
    ensures balances { IfOk result (λ out. All Balances out.exchanges) }
{
    let grid = plan.grid();
    ground_of(grid);
    let journey = run_on(alloc, grid, plan.names(), plan.start())?;
    Ok(journey.outcome())
}
