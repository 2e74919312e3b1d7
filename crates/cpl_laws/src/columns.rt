// The columns of the two tables, cell by cell.
ghost use Rattle.std.specs.Prelude.{◌≡◌};
ghost use Rattle.cpl_fixed.specs.declared.words.Quantity.{Quantity};
ghost use Rattle.cpl_namelist.specs.declared.names.Names.{Names};
ghost use Rattle.cpl_xgrid.specs.declared.grid.Grid.{Grid};
ghost use Rattle.cpl_state.specs.declared.whole.Whole.{Whole};
ghost use Rattle.cpl_state.specs.States.{HasLengths, air_cells};
ghost use Rattle.cpl_state.specs.Stocks.{stocks_of};
ghost use Rattle.cpl_state.specs.CouplingStep.{step_entered, step_gave, step_left, step_took};
ghost use Rattle.cpl_state.specs.Columns.{entered_at, gave_by_cells, left_at, over_cells, stocks_by_cells, took_by_cells};

/// Each column of the two tables is a sum over cells of what each cell has there: the stocks of a state, and what entered, what left,
/// what was given and what was taken in a coupling step.
pub fn columns_law()
    ensures stocks { (grid : Grid) (whole : Whole) (quantity : Quantity) → HasLengths grid whole
        → stocks_of grid whole quantity ≡ stocks_by_cells grid whole quantity }
    ensures entered { (grid : Grid) (names : Names) (whole : Whole)
        → step_entered grid names whole ≡ over_cells (air_cells grid) (entered_at grid names whole) }
    ensures left { (grid : Grid) (names : Names) (whole : Whole)
        → step_left grid names whole ≡ over_cells (air_cells grid) (left_at grid names whole) }
    ensures gave { (grid : Grid) (names : Names) (whole : Whole) → step_gave grid names whole ≡ gave_by_cells grid names whole }
    ensures took { (grid : Grid) (names : Names) (whole : Whole) → step_took grid names whole ≡ took_by_cells grid names whole }
{}
