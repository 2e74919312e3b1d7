// The laws.
ghost use Rattle.std.specs.Prelude.{◌≡◌, ◌+◌, ◌<◌, ◌≤◌, ℕ};
ghost use Rattle.cpl_namelist.specs.declared.names.Names.{Names};
ghost use Rattle.cpl_xgrid.specs.declared.grid.Grid.{Grid};
ghost use Rattle.cpl_state.specs.declared.whole.Whole.{Whole};
ghost use Rattle.cpl_state.specs.Bounds.{IsWholeUpTo};
ghost use Rattle.cpl_state.specs.Budget.{budget_of};
ghost use Rattle.cpl_state.specs.CouplingStep.{state_after};
ghost use Rattle.cpl_course.specs.Course.{CanRun, IsGround, IsOnCourse, IsWayUpTo, KeepsCoupling};

/// A coupling step keeps all: the state after it is lawful, heat enters by the sun and leaves to space alone, no water and no salt
/// is made or lost, and in each exchange what was in flight and what was given is what was taken and what is in flight.
pub fn coupling_law()
    ensures { (steps : ℕ) (grid : Grid) (names : Names) (whole : Whole) → IsGround grid → 1 ≤ steps → CanRun steps grid names whole
        → KeepsCoupling grid names whole }
{}

/// From a start within the budget of a run each of its states is lawful, is within the budget of what is left of the run, and holds
/// what the start held, with the sun that entered, less what left to space.
pub fn course_law()
    ensures { (steps : ℕ) (grid : Grid) (names : Names) (start : Whole) → IsGround grid → CanRun steps grid names start
        → (n : ℕ) → n ≤ steps → IsOnCourse steps grid names start n }
{}

/// No amount of a run is negative or above the total that its budget is judged by: no heat above all heat of the start with the sun
/// of the strongest month in every fast step, no water above all water of the start, no salt above all its salt. So it is in each
/// state, and on the way from each to the next.
pub fn totals_law()
    ensures states { (steps : ℕ) (grid : Grid) (names : Names) (start : Whole) → IsGround grid → CanRun steps grid names start
        → (n : ℕ) → n ≤ steps → IsWholeUpTo (budget_of steps grid names start) grid (state_after n grid names start) }
    ensures way { (steps : ℕ) (grid : Grid) (names : Names) (start : Whole) → IsGround grid → CanRun steps grid names start
        → (n : ℕ) → n < steps → IsWayUpTo (budget_of steps grid names start) grid names (state_after n grid names start) }
{}

/// A run that goes on from one of its states comes to the same states.
pub fn restart_law()
    ensures { (a b : ℕ) (grid : Grid) (names : Names) (start : Whole)
        → state_after (b + a) grid names start ≡ state_after b grid names (state_after a grid names start) }
{}
