// A run on its way.
ghost use Rattle.std.specs.Prelude.{◌≡◌, [], ◌++◌, map, IfOk, OnOk};
ghost use Rattle.cpl_course.specs.Course.{IsGround};
ghost use Rattle.cpl_whole.specs.Rooms.{IsStepRoom};
ghost use Rattle.cpl_state.specs.States.{IsWhole};
ghost use Rattle.cpl_whole.specs.Exchanges.{Crossed};
ghost use Rattle.cpl_whole.specs.Holdings.{holding_of};
ghost use Rattle.cpl_whole.specs.Journeys.{CanGo, CanTell, CanTravel, HasGone, HasSetOut, IsJourney};
ghost use Rattle.cpl_whole.specs.Rows.{date_of, quantities, stock_row_of};

use crate::copy::copy_whole;
use crate::coupling::couple;
use crate::exchanges::Crossing;
use crate::holdings::{Stage, push_stocks};
use crate::room::StepRoom;
use crate::run::Outcome;
use crate::tally::step_tally;
use cpl_fixed::List;
use cpl_namelist::Names;
use cpl_plan::{Holdings, holdings_of};
use cpl_state::Whole;
use cpl_stocks::{ExchangeRow, StockRow};
use cpl_xgrid::Grid;
use std::alloc::{AllocError, Global};

// A run on its way: its state and what that holds, the heat that entered and left so far, and the rows so far.
#[derive(Drop)]
pub(crate) struct Journey {
    pub(crate) state: Whole,
    pub(crate) held: Holdings,
    pub(crate) entered: i64,
    pub(crate) left: i64,
    pub(crate) stocks: Vec<StockRow>,
    pub(crate) exchanges: Vec<ExchangeRow>,
}

impl Journey {
    // A run at its start, with memory for its rows.
    pub(crate) fn set_out(
        alloc: Global,
        grid: &Grid,
        start: &Whole,
        stocks: Vec<StockRow>,
        exchanges: Vec<ExchangeRow>,
    ) -> Result<Journey, AllocError>
        requires ground { IsGround grid.now }
        requires start { IsWhole grid.now start.now }
        ensures { IfOk result (HasSetOut grid.now start.now stocks.items exchanges.items) }
    {
        let state = copy_whole(alloc, start)?;
        Ok(Journey {
            state,
            held: holdings_of(grid, start),
            entered: 0,
            left: 0,
            stocks,
            exchanges,
        })
    }

    // A coupling step: what crossed in it. It takes no memory.
    pub(crate) fn go(&mut self, grid: &Grid, names: &Names, room: &mut StepRoom) -> Crossing
        requires can { CanGo grid.now names.now self.old }
        requires room { IsStepRoom grid.now room.old }
        ensures gone { HasGone grid.now names.now self.old self.new }
        ensures crossed { Crossed grid.now names.now self.old.state result }
        ensures room { IsStepRoom grid.now room.new }
    {
        let moved = couple(grid, names, &mut self.state, room);
        let after = holdings_of(grid, &self.state);
        let tally = step_tally(&moved, &self.held, &after);
        let crossing = Crossing::between(&self.held, &tally, &after);
        self.held = after;
        self.entered += tally.entered;
        self.left += tally.left;
        crossing
    }

    // Appends the rows of the state's stocks.
    pub(crate) fn tell(&mut self, names: &Names, step: u32) -> Result<(), AllocError>
        requires { CanTell names.now self.old }
        ensures rows { OnOk result (self.new.stocks.items ≡ self.old.stocks.items ++ map (λ quantity. stock_row_of step (date_of names.now self.old.state) self.old.state.elapsed quantity (holding_of self.old.held quantity) self.old.entered self.old.left) quantities) }
        ensures same { self.new ≡ record self.old { stocks = self.new.stocks } }
    {
        let seconds = self.state.elapsed;
        let stage = Stage {
            step,
            date: names.date_of(seconds),
            seconds,
            entered: self.entered,
            left: self.left,
        };
        push_stocks(&stage, &self.held, &mut self.stocks)
    }

    // All coupling steps of a run that is at its start, and their rows.
    pub(crate) fn go_all(
        &mut self,
        grid: &Grid,
        names: &Names,
        room: &mut StepRoom,
    ) -> Result<(), AllocError>
        requires can { CanTravel grid.now names.now self.old.state }
        requires out { IsJourney grid.now names.now self.old.state 0 self.old }
        requires room { IsStepRoom grid.now room.old }
        ensures { OnOk result (IsJourney grid.now names.now self.old.state names.now.steps self.new) }
    {
        for n in 0..names.steps {
            let crossing = self.go(grid, names, room);
            crossing.push_rows(n + 1, &mut self.exchanges)?;
            self.tell(names, n + 1)?;
        }
        Ok(())
    }

    // All coupling steps, in room of their own. Without one no room is wanted.
    fn go_on(&mut self, alloc: Global, grid: &Grid, names: &Names) -> Result<(), AllocError>
        requires can { CanTravel grid.now names.now self.old.state }
        requires out { IsJourney grid.now names.now self.old.state 0 self.old }
        ensures { OnOk result (IsJourney grid.now names.now self.old.state names.now.steps self.new) }
    {
        if names.steps == 0 {
            return Ok(());
        }
        let mut room = StepRoom::new(alloc, grid)?;
        self.go_all(grid, names, &mut room)
    }

    // A run from its start to its end, with the rows of all its states and steps.
    pub(crate) fn run(
        &mut self,
        alloc: Global,
        grid: &Grid,
        names: &Names,
    ) -> Result<(), AllocError>
        requires can { CanTravel grid.now names.now self.old.state }
        requires out { HasSetOut grid.now self.old.state [] [] self.old }
        ensures { OnOk result (IsJourney grid.now names.now self.old.state names.now.steps self.new) }
    {
        self.tell(names, 0)?;
        self.go_on(alloc, grid, names)
    }

    // What it leaves.
    pub(crate) fn outcome(self) -> Outcome
        ensures stocks { result.stocks ≡ self.stocks.items }
        ensures exchanges { result.exchanges ≡ self.exchanges.items }
        ensures last { result.last ≡ self.state }
    {
        let Journey {
            state,
            stocks,
            exchanges,
            ..
        } = self;
        Outcome {
            stocks: List::from_vec(stocks),
            exchanges: List::from_vec(exchanges),
            last: state,
        }
    }
}
