// The rows of the stocks table.
ghost use Rattle.std.specs.Prelude.{◌≡◌, ◌++◌, ◌+ℤ◌, map, OnOk};
ghost use Rattle.cpl_fixed.specs.Amounts.{IsAmount};
ghost use Rattle.cpl_state.specs.Stocks.{sum_of_stocks};
ghost use Rattle.cpl_plan.specs.Sums.{held_of};
ghost use Rattle.cpl_whole.specs.Holdings.{FitRow, FitRows, IsStage, IsWide, holding_of};
ghost use Rattle.cpl_whole.specs.Rows.{of_heat, quantities, stock_row_of};

use cpl_fixed::Quantity;
use cpl_namelist::Civil;
use cpl_plan::{Holdings, Stocks};
use cpl_stocks::StockRow;
use std::alloc::AllocError;

// Where a run has come to: how many coupling steps it has done, the date and the elapsed seconds after them, and the heat that
// entered and left in them.
#[derive(Clone, Copy)]
pub(crate) struct Stage {
    pub(crate) step: u32,
    pub(crate) date: Civil,
    pub(crate) seconds: i64,
    pub(crate) entered: i64,
    pub(crate) left: i64,
}

// Heat alone enters and leaves.
fn of_heat(quantity: Quantity, x: i64) -> i64
    ensures { result ≡ of_heat quantity x }
{
    match quantity {
        Quantity::Heat => x,
        _ => 0,
    }
}

// An amount, which fits 64 bits.
pub(crate) fn narrow(x: i128) -> i64
    requires { IsAmount x }
    ensures { result ≡ x }
{
    x as i64
}

// The sum of two sums.
fn plus(a: i128, b: i128) -> i128
    requires first { IsWide a }
    requires second { IsWide b }
    ensures { result ≡ a +ℤ b }
{
    a + b
}

// The sum of the six stocks.
fn total(stocks: &Stocks) -> i64
    requires { FitRow stocks.now }
    ensures { result ≡ sum_of_stocks (held_of stocks.now) }
{
    let over = plus(plus(stocks.air, stocks.land), stocks.ice);
    let flying = plus(stocks.to_ice, stocks.to_ocean);
    narrow(plus(over, plus(stocks.ocean, flying)))
}

// The row of the stocks of a quantity.
fn stock_row(stage: &Stage, quantity: Quantity, stocks: &Stocks) -> StockRow
    requires stage { IsStage stage.now }
    requires stocks { FitRow stocks.now }
    ensures { result ≡ stock_row_of stage.now.step stage.now.date stage.now.seconds quantity (held_of stocks.now) stage.now.entered stage.now.left }
{
    StockRow {
        step: stage.step,
        date: stage.date,
        seconds: stage.seconds,
        quantity,
        air: narrow(stocks.air),
        land: narrow(stocks.land),
        ice: narrow(stocks.ice),
        ocean: narrow(stocks.ocean),
        to_ice: narrow(stocks.to_ice),
        to_ocean: narrow(stocks.to_ocean),
        entered: of_heat(quantity, stage.entered),
        left: of_heat(quantity, stage.left),
        total: total(stocks),
    }
}

// Appends the three rows of a state.
pub(crate) fn push_stocks(
    stage: &Stage,
    holdings: &Holdings,
    rows: &mut Vec<StockRow>,
) -> Result<(), AllocError>
    requires stage { IsStage stage.now }
    requires holdings { FitRows holdings.now }
    ensures { OnOk result (rows.new.items ≡ rows.old.items ++ map (λ quantity. stock_row_of stage.now.step stage.now.date stage.now.seconds quantity (holding_of holdings.now quantity) stage.now.entered stage.now.left) quantities) }
{
    rows.push(stock_row(stage, Quantity::Heat, &holdings.heat))?;
    rows.push(stock_row(stage, Quantity::Water, &holdings.water))?;
    rows.push(stock_row(stage, Quantity::Salt, &holdings.salt))?;
    Ok(())
}
