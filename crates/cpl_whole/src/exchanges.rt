// The rows of the exchanges table.
ghost use Rattle.std.specs.Prelude.{◌≡◌, ◌≤◌, ◌++◌, ◌*◌, map, OnOk};
ghost use Rattle.std.specs.List.{flat_map};
ghost use Rattle.cpl_whole.specs.Exchanges.{flying_in, row_in};
ghost use Rattle.cpl_whole.specs.Holdings.{FitRows};
ghost use Rattle.cpl_whole.specs.Rows.{exchange_place, exchanges, quantities};

use crate::holdings::narrow;
use crate::tally::StepTally;
use cpl_fixed::Quantity;
use cpl_plan::Holdings;
use cpl_stocks::{Exchange, ExchangeRow};
use std::alloc::AllocError;

// What crossed of the five exchanges in a coupling step, heat, water and salt of each: in flight before it, given, taken, and in
// flight after it.
#[derive(Clone, Copy)]
pub(crate) struct Crossing {
    pub(crate) before: [i64; 15],
    pub(crate) gave: [i128; 15],
    pub(crate) took: [i128; 15],
    pub(crate) after: [i64; 15],
}

// What is in flight of the five exchanges: between ice and ocean alone.
fn flying_in(holdings: &Holdings) -> [i64; 15]
    requires { FitRows holdings.now }
    ensures { result ≡ flying_in holdings.now }
{
    let Holdings { heat, water, salt } = *holdings;
    [
        0,
        0,
        0,
        0,
        0,
        0,
        0,
        0,
        0,
        narrow(heat.to_ice),
        narrow(water.to_ice),
        narrow(salt.to_ice),
        narrow(heat.to_ocean),
        narrow(water.to_ocean),
        narrow(salt.to_ocean),
    ]
}

impl Crossing {
    // What crossed in a coupling step between two states.
    pub(crate) fn between(before: &Holdings, tally: &StepTally, after: &Holdings) -> Crossing
        requires before { FitRows before.now }
        requires after { FitRows after.now }
        ensures before { result.before ≡ flying_in before.now }
        ensures gave { result.gave ≡ tally.now.gave }
        ensures took { result.took ≡ tally.now.took }
        ensures after { result.after ≡ flying_in after.now }
    {
        Crossing {
            before: flying_in(before),
            gave: tally.gave,
            took: tally.took,
            after: flying_in(after),
        }
    }

    // The row of a quantity. The numbers of its exchange begin at a place.
    fn row(&self, step: u32, first: usize, exchange: Exchange, quantity: Quantity) -> ExchangeRow
        requires { first ≤ 12 }
        ensures { result ≡ row_in self.now step first exchange quantity }
    {
        let place = match quantity {
            Quantity::Heat => first,
            Quantity::Water => first + 1,
            Quantity::Salt => first + 2,
        };
        ExchangeRow {
            step,
            exchange,
            quantity,
            before: self.before[place],
            gave: self.gave[place],
            took: self.took[place],
            after: self.after[place],
        }
    }

    // Appends the three rows of an exchange.
    fn push_exchange(
        &self,
        step: u32,
        first: usize,
        exchange: Exchange,
        rows: &mut Vec<ExchangeRow>,
    ) -> Result<(), AllocError>
        requires { first ≤ 12 }
        ensures { OnOk result (rows.new.items ≡ rows.old.items ++ map (row_in self.now step first exchange) quantities) }
    {
        rows.push(self.row(step, first, exchange, Quantity::Heat))?;
        rows.push(self.row(step, first, exchange, Quantity::Water))?;
        rows.push(self.row(step, first, exchange, Quantity::Salt))?;
        Ok(())
    }

    // Appends the fifteen rows of a coupling step.
    pub(crate) fn push_rows(&self, step: u32, rows: &mut Vec<ExchangeRow>) -> Result<(), AllocError>
        ensures { OnOk result (rows.new.items ≡ rows.old.items ++ flat_map (λ exchange. map (row_in self.now step (3 * exchange_place exchange) exchange) quantities) exchanges) }
    {
        self.push_exchange(step, 0, Exchange::AirLand, rows)?;
        self.push_exchange(step, 3, Exchange::AirIce, rows)?;
        self.push_exchange(step, 6, Exchange::LandIce, rows)?;
        self.push_exchange(step, 9, Exchange::OceanIce, rows)?;
        self.push_exchange(step, 12, Exchange::IceOcean, rows)
    }
}
