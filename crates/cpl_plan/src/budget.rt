// The budget of a run.
ghost use Rattle.std.specs.Prelude.{◌≡◌, ◌*◌, ◌≤◌, ◌^◌, None, pos, ◌*ℤ◌, ◌≤ℤ◌, ◌<ℤ◌, All};
ghost use Rattle.std.specs.Option.{option_map};
ghost use Rattle.cpl_fixed.specs.Ranges.{IsFromℤ};
ghost use Rattle.cpl_fixed.specs.declared.words.Quantity.TheVariants.{Heat, Water, Salt};
ghost use Rattle.cpl_namelist.specs.Ranges.{AreNames};
ghost use Rattle.cpl_xgrid.specs.Grids.{IsGrid};
ghost use Rattle.cpl_state.specs.Budget.{budget_fault, budget_of, greatest, if_above, sun_of_strength, sun_to_come};
ghost use Rattle.cpl_state.specs.States.{IsWhole};
ghost use Rattle.cpl_state.specs.Stocks.{sum_of_stocks};
ghost use Rattle.cpl_plan.specs.Faults.{Judges, over_budget};
ghost use Rattle.cpl_plan.specs.Sums.{AreFew, AreSmall, held_of};

use crate::error::PlanError;
use crate::stocks::{Stocks, few_numbers, holdings_of};
use cpl_fixed::{MOST_TOTAL, Quantity};
use cpl_namelist::Names;
use cpl_state::Whole;
use cpl_xgrid::Grid;

// The greatest of numbers that aren't negative.
fn greatest(numbers: &[i64]) -> i64
    requires { All (IsFromℤ 0 4_000) numbers.now }
    ensures value { result ≡ greatest numbers.now }
    ensures range { IsFromℤ 0 4_000 result }
{
    let mut most = 0;
    for number in numbers {
        most = most.max(*number);
    }
    most
}

// The sun of a fast step on all cells of the air, in a month of this strength in thousandths.
fn sun_of_strength(strength: i64, suns: &[i64]) -> i128
    requires strength { IsFromℤ 0 4_000 strength }
    requires suns { AreFew suns.now }
    ensures value { result ≡ sun_of_strength strength suns.now }
    ensures small { (pos 0 ≤ℤ result) × (result <ℤ pos (2 ^ 98)) }
{
    let mut total = 0u128;
    for sun in suns {
        total += u128::from(*sun as u64) * u128::from(strength as u64) / 1_000;
    }
    total as i128
}

// The sun that is still to come in the run.
fn sun_to_come(names: &Names, start: &Whole) -> i128
    requires names { AreNames names.now }
    requires suns { AreFew start.now.air_sun }
    ensures value { result ≡ sun_to_come names.now.steps names.now start.now }
    ensures small { (pos 0 ≤ℤ result) × (result <ℤ pos (2 ^ 122)) }
{
    let most = sun_of_strength(greatest(&names.rates.month), start.air_sun.as_slice());
    i128::from(u64::from(names.steps) * u64::from(names.fast)) * most
}

// All of these stocks together.
fn held(stocks: &Stocks) -> i128
    requires { AreSmall stocks.now }
    ensures value { result ≡ sum_of_stocks (held_of stocks.now) }
    ensures small { (pos 0 ≤ℤ result) × (result <ℤ pos (2 ^ 100)) }
{
    stocks.air + stocks.land + stocks.ice + stocks.ocean + stocks.to_ice + stocks.to_ocean
}

// The first of heat, water and salt whose total is above the budget.
fn judge_totals(heat: i128, water: i128, salt: i128) -> Result<(), PlanError>
    ensures { Judges (option_map over_budget (if_above heat Heat (if_above water Water (if_above salt Salt None)))) result }
{
    let most = i128::from(MOST_TOTAL);
    if heat > most {
        Err(PlanError::Budget(Quantity::Heat, heat))
    } else if water > most {
        Err(PlanError::Budget(Quantity::Water, water))
    } else if salt > most {
        Err(PlanError::Budget(Quantity::Salt, salt))
    } else {
        Ok(())
    }
}

/// Whether all that the run may come to hold keeps within 2^62 - 1: heat with the sun to come, then water, then salt.
pub(crate) fn judge_budget(grid: &Grid, names: &Names, start: &Whole) -> Result<(), PlanError>
    requires grid { IsGrid grid.now }
    requires names { AreNames names.now }
    requires start { IsWhole grid.now start.now }
    ensures { Judges (option_map over_budget (budget_fault grid.now names.now start.now)) result }
{
    few_numbers(grid, start);
    let holdings = holdings_of(grid, start);
    let heat = held(&holdings.heat) + sun_to_come(names, start);
    let water = held(&holdings.water);
    let salt = held(&holdings.salt);
    judge_totals(heat, water, salt)
}
