// The tables of a list: room for them, and the areas of the elements of a state.
ghost use Rattle.std.specs.Prelude.{◌≡◌, ◌*◌, ◌≤◌, length, IfOk};
ghost use Rattle.cpl_fixed.specs.declared.limits.TheConstants.{MOST_EXCHANGE_CELLS};
ghost use Rattle.cpl_state.specs.States.{IsWhole};
ghost use Rattle.cpl_xgrid.specs.declared.parts.Surface.TheVariants.{Land, Ocean};
ghost use Rattle.cpl_laws.specs.Once.{IsNumbered};
ghost use Rattle.cpl_fast.specs.Filled.{AreElementAreas};
ghost use Rattle.cpl_fast.specs.Flows.{AreUsed};
ghost use Rattle.cpl_fast.specs.Rooms.{HasTables};

use crate::flows::{Link, Tables};
use crate::tables::{fill_land_areas, fill_ocean_areas};
use cpl_state::Whole;
use cpl_xgrid::{Grid, Surface};
use std::alloc::{AllocError, Global};

impl Tables {
    // Tables with these links, each row of `width` elements. The areas are to be set.
    pub(crate) fn new(alloc: Global, links: Vec<Link>, width: usize) -> Result<Tables, AllocError>
        requires rows { length links.items ≤ MOST_EXCHANGE_CELLS }
        requires width { width ≤ 6 }
        ensures width { IfOk result (λ tables. tables.width ≡ width) }
        ensures links { IfOk result (λ tables. tables.links.items ≡ links.items) }
        ensures areas { IfOk result (λ tables. length tables.areas.items ≡ length links.items * width) }
        ensures used { IfOk result AreUsed }
    {
        let areas = vec![in alloc; 0; links.len() * width]?;
        let used = vec![in alloc; 0; links.len()]?;
        Ok(Tables {
            width,
            links,
            areas,
            used,
        })
    }

    // Sets the areas of the elements of the land list, which no state changes.
    pub(crate) fn divide_land(&mut self, grid: &Grid, whole: &Whole)
        requires grid { IsNumbered grid.now }
        requires whole { IsWhole grid.now whole.now }
        requires tables { HasTables grid.now Land self.old }
        ensures tables { HasTables grid.now Land self.new }
        ensures areas { AreElementAreas grid.now whole.now Land self.new.areas.items }
    {
        fill_land_areas(
            grid.xgrid.rows(Surface::Land),
            &mut self.areas,
            &mut self.used,
        );
    }

    // Sets the areas of the elements of the ocean list by the parts of a state.
    pub(crate) fn divide_ocean(&mut self, grid: &Grid, whole: &Whole)
        requires grid { IsNumbered grid.now }
        requires whole { IsWhole grid.now whole.now }
        requires tables { HasTables grid.now Ocean self.old }
        ensures tables { HasTables grid.now Ocean self.new }
        ensures areas { AreElementAreas grid.now whole.now Ocean self.new.areas.items }
    {
        let rows = grid.xgrid.rows(Surface::Ocean);
        let parts = whole.parts.as_slice();
        fill_ocean_areas(
            rows,
            &self.links,
            parts,
            self.width,
            &mut self.areas,
            &mut self.used,
        );
    }
}
