// The laws.
ghost use Rattle.cpl_mosaic.specs.Mates.{MatesAgree};
ghost use Rattle.cpl_xgrid.specs.declared.grid.Grid.{Grid};
ghost use Rattle.cpl_state.specs.declared.whole.Whole.{Whole};
ghost use Rattle.cpl_state.specs.Diffusion.{IsAirMesh};
ghost use Rattle.cpl_state.specs.States.{IsWhole};
ghost use Rattle.cpl_state.specs.FastStep.{Before};
ghost use Rattle.cpl_state.specs.FastLaws.{CanStep, KeepsAll};
ghost use Rattle.cpl_fixed.specs.declared.rates.Rates.{Rates};
ghost use Rattle.cpl_state.specs.declared.whole.Mid.{Mid};
ghost use Rattle.cpl_state.specs.SlowLaws.{CanSlowAll, KeepsSlow};
ghost use Rattle.cpl_namelist.specs.declared.names.Names.{Names};
ghost use Rattle.cpl_state.specs.SurfaceLaws.{CanCouple, KeepsSurface};
ghost use Rattle.cpl_laws.specs.Once.{IsNumbered, CountedOnce};
ghost use Rattle.cpl_laws.specs.Cells.{ElementsAgree};

/// The cells of the air count each exchange cell once, the cells of the land each of the land list, and the cells of the ocean each
/// of the ocean list: whatever each exchange cell has, the sums over the cells are the sums over the lists.
pub fn once_law()
    ensures { (grid : Grid) → IsNumbered grid → CountedOnce grid }
{}

/// The areas of the elements of a cell are the cell's, and what is divided over the elements of a cell of the air is divided whole.
pub fn elements_law()
    ensures { (grid : Grid) (whole : Whole) → IsNumbered grid → IsAirMesh grid.air → IsWhole grid whole → ElementsAgree grid whole }
{}

/// A fast step keeps all: what the air gives the surface takes, heat enters by the sun and leaves to space alone, no water and no
/// salt is made or lost, no number falls below 0 or above the greatest total, and the state after it is lawful.
pub fn fast_law()
    ensures { (s : Before) → IsNumbered s.grid → MatesAgree s.grid.air.mosaic → CanStep s → KeepsAll s }
{}

/// The slow part of a coupling step keeps all: what runs off the land arrives in cells of the ocean's mosaic with an area, what
/// the ice had it has or gives back, no heat, water or salt is made or lost, no number falls below 0 or above the greatest total,
/// and the state after it is lawful.
pub fn slow_law()
    ensures { (grid : Grid) (rates : Rates) (mid : Mid) → IsNumbered grid → CanSlowAll grid rates mid → KeepsSlow grid rates mid }
{}

/// The air, the land and the ice keep all in a coupling step: the ice takes what flew to it, each fast step and the slow part can be
/// made and keep all, what was given was taken, and all that the state held, but what flew to the ocean, is there after the step,
/// with the sun that entered, less what left to space.
pub fn surface_law()
    ensures { (grid : Grid) (names : Names) (whole : Whole) → IsNumbered grid → MatesAgree grid.air.mosaic → CanCouple grid names whole
        → KeepsSurface grid names whole }
{}
