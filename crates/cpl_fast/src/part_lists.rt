// The parts of the surface, by the lists of a state.
ghost use Rattle.std.specs.Prelude.{◌≡◌, ◌<◌, ◌≤◌, length};
ghost use Rattle.cpl_state.specs.FastLaws.{CanStep};
ghost use Rattle.cpl_xgrid.specs.declared.parts.Surface.TheVariants.{Land, Ocean};
ghost use Rattle.cpl_fast.specs.PartLists.{AreParts, HaveCounts, part_in};
ghost use Rattle.cpl_fast.specs.Rooms.{ArePartAreas};
ghost use Rattle.cpl_fast.specs.Stages.{step_of};

use crate::layout::place_in;
use crate::stages::View;
use cpl_flux::{Kind, Part};
use cpl_xgrid::Surface;

/// The numbers that make the parts of a surface. A state has heat and water of the first part of each cell, land or open water, and heat
/// and ice of its categories, cell by cell. The room has the areas of all parts, part by part.
#[derive(Clone, Copy)]
pub(crate) struct PartLists<'s, 'a> {
    pub(crate) first: Kind,
    pub(crate) categories: usize,
    pub(crate) heat: &'s [i64],
    pub(crate) water: &'s [i64],
    pub(crate) ice_heat: &'s [i64],
    pub(crate) ice: &'s [i64],
    pub(crate) area: &'a [i64],
}

impl<'s, 'a> PartLists<'s, 'a> {
    // The k-th part of cell n.
    #[inline]
    pub(crate) fn part(&self, n: usize, k: usize) -> Part
        requires counts { HaveCounts self.now }
        requires cell { n < length self.now.heat.now }
        requires part { k ≤ self.now.categories }
        ensures { result ≡ part_in self.now n k }
    {
        let area = self.area[place_in(self.heat.len(), n, k)];
        if k == 0 {
            return Part {
                kind: self.first,
                heat: self.heat[n],
                mass: self.water[n],
                area,
            };
        }
        let place = n * self.categories + k - 1;
        Part {
            kind: Kind::Ice,
            heat: self.ice_heat[place],
            mass: self.ice[place],
            area,
        }
    }
}

// The parts of the land before a step, where `area` has their areas.
fn land_parts<'s, 'a>(view: &View<'s>, area: &'a [i64]) -> PartLists<'s, 'a>
    requires can { CanStep (step_of view.now) }
    requires areas { ArePartAreas view.now.grid.now view.now.mid.now.whole Land area.now }
    ensures { AreParts (step_of view.now) Land result }
{
    PartLists {
        first: Kind::Land,
        categories: 0,
        heat: view.mid.whole.land_heat.as_slice(),
        water: view.mid.whole.land_water.as_slice(),
        ice_heat: &[],
        ice: &[],
        area,
    }
}

// The parts of the ocean's mosaic before a step, where `area` has their areas.
fn ocean_parts<'s, 'a>(view: &View<'s>, area: &'a [i64]) -> PartLists<'s, 'a>
    requires can { CanStep (step_of view.now) }
    requires areas { ArePartAreas view.now.grid.now view.now.mid.now.whole Ocean area.now }
    ensures { AreParts (step_of view.now) Ocean result }
{
    PartLists {
        first: Kind::Water,
        categories: view.grid.column.categories as usize,
        heat: view.mid.skin_heat.as_slice(),
        water: view.mid.skin_water.as_slice(),
        ice_heat: view.mid.whole.ice_heat.as_slice(),
        ice: view.mid.whole.ice.as_slice(),
        area,
    }
}

// The parts of either surface before a step, where `area` has their areas.
pub(crate) fn surface_parts<'s, 'a>(
    view: &View<'s>,
    list: Surface,
    area: &'a [i64],
) -> PartLists<'s, 'a>
    requires can { CanStep (step_of view.now) }
    requires areas { ArePartAreas view.now.grid.now view.now.mid.now.whole list area.now }
    ensures { AreParts (step_of view.now) list result }
{
    match list {
        Surface::Land => land_parts(view, area),
        Surface::Ocean => ocean_parts(view, area),
    }
}
