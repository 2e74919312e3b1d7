// The ocean of a whole state.
ghost use Rattle.std.specs.Prelude.{◌≡◌, ◌*◌, length, All};
ghost use Rattle.cpl_fixed.specs.Amounts.{IsAmount};
ghost use Rattle.cpl_state.specs.Cut.{after_cut, cut_off, with_flight};
ghost use Rattle.cpl_state.specs.Diffusion.{cell_count};
ghost use Rattle.cpl_fixed.specs.Ranges.{AreRates};
ghost use Rattle.cpl_state.specs.States.{layers, ocean_cells};
ghost use Rattle.cpl_state.specs.CouplingStep.{sea_of};
ghost use Rattle.cpl_state.specs.Transport.{stepped};
ghost use Rattle.cpl_sea.specs.Rooms.{HasSameRoom, IsSeaRoom, sea_in, with_sea};
ghost use Rattle.cpl_sea.specs.Seas.{IsSea};

use crate::ends::{add_flight, cut_top};
use crate::room::SeaRoom;
use cpl_fixed::Rates;
use cpl_mosaic::Mesh;
use cpl_state::Whole;
use cpl_xgrid::Grid;

impl SeaRoom {
    // The ocean's lists of a state change places with those of the room.
    fn exchange(&mut self, whole: &mut Whole)
        ensures room { sea_in self.new ≡ sea_of whole.old }
        ensures whole { whole.new ≡ with_sea whole.old (sea_in self.old) }
        ensures kept { HasSameRoom self.old self.new }
    {
        whole.water.swap(&mut self.water);
        whole.heat.swap(&mut self.heat);
        whole.salt.swap(&mut self.salt);
        whole.faces.swap(&mut self.faces);
    }

    // Adds a flight to the top layer of the ocean in the room.
    fn add_inside(&mut self, mesh: &Mesh, layers: usize, flight: &[i64])
        requires room { IsSeaRoom mesh.now layers self.old }
        requires sea { IsSea mesh.now layers (sea_in self.old) }
        requires flight { All IsAmount flight.now }
        requires count { length flight.now ≡ 3 * cell_count mesh.now }
        ensures sea { sea_in self.new ≡ with_flight mesh.now (sea_in self.old) flight.now }
        ensures room { IsSeaRoom mesh.now layers self.new }
    {
        let count = mesh.mosaic.cells() as usize;
        add_flight(
            flight,
            count,
            self.water.as_mut_slice(),
            self.heat.as_mut_slice(),
            self.salt.as_mut_slice(),
        );
    }

    // Cuts what leaves the top layer of the ocean in the room.
    fn cut_inside(&mut self, mesh: &Mesh, layers: usize)
        requires room { IsSeaRoom mesh.now layers self.old }
        requires sea { IsSea mesh.now layers (sea_in self.old) }
        requires flights { length self.old.flights.items ≡ 5 * cell_count mesh.now }
        ensures sea { sea_in self.new ≡ after_cut mesh.now (sea_in self.old) }
        ensures flights { self.new.flights.items ≡ cut_off mesh.now (sea_in self.old) }
        ensures room { IsSeaRoom mesh.now layers self.new }
    {
        cut_top(
            mesh.mosaic.cells() as usize,
            self.water.as_mut_slice(),
            self.heat.as_mut_slice(),
            self.salt.as_mut_slice(),
            self.flights.as_mut_slice(),
        );
    }

    /// Takes the ocean of a state one step further: water, heat and salt move through all faces at once, and then the layers of
    /// each column exchange. It takes no memory. Transport and exchange are defined by this project.
    pub fn step(&mut self, grid: &Grid, rates: &Rates, whole: &mut Whole)
        requires room { IsSeaRoom grid.now.ocean (layers grid.now) self.old }
        requires sea { IsSea grid.now.ocean (layers grid.now) (sea_of whole.old) }
        requires rates { AreRates rates.now }
        ensures whole { whole.new ≡ with_sea whole.old (stepped grid.now.ocean (layers grid.now) rates.now (sea_of whole.old)) }
        ensures room { IsSeaRoom grid.now.ocean (layers grid.now) self.new }
    {
        self.exchange(whole);
        self.advance(&grid.ocean, grid.column.layers as usize, rates);
        self.exchange(whole);
    }

    /// Adds the flight to the ocean of a state to its top layer, as a coupling step begins. The flight stands. It takes no memory.
    pub fn add(&mut self, grid: &Grid, whole: &mut Whole)
        requires room { IsSeaRoom grid.now.ocean (layers grid.now) self.old }
        requires sea { IsSea grid.now.ocean (layers grid.now) (sea_of whole.old) }
        requires flight { All IsAmount whole.old.to_ocean }
        requires count { length whole.old.to_ocean ≡ 3 * ocean_cells grid.now }
        ensures whole { whole.new ≡ with_sea whole.old (with_flight grid.now.ocean (sea_of whole.old) whole.old.to_ocean) }
        ensures room { IsSeaRoom grid.now.ocean (layers grid.now) self.new }
    {
        self.exchange(whole);
        self.add_inside(
            &grid.ocean,
            grid.column.layers as usize,
            whole.to_ocean.as_slice(),
        );
        self.exchange(whole);
    }

    /// Cuts frazil and skin off the top layer of a state's ocean, as a coupling step ends: they are the state's new flight to the
    /// ice. It takes no memory. The cut is defined by this project.
    pub fn cut(&mut self, grid: &Grid, whole: &mut Whole)
        requires room { IsSeaRoom grid.now.ocean (layers grid.now) self.old }
        requires sea { IsSea grid.now.ocean (layers grid.now) (sea_of whole.old) }
        requires count { length whole.old.to_ice ≡ 5 * ocean_cells grid.now }
        ensures whole { whole.new ≡ record (with_sea whole.old (after_cut grid.now.ocean (sea_of whole.old))) { to_ice = cut_off grid.now.ocean (sea_of whole.old) } }
        ensures room { IsSeaRoom grid.now.ocean (layers grid.now) self.new }
    {
        self.exchange(whole);
        whole.to_ice.swap(&mut self.flights);
        self.cut_inside(&grid.ocean, grid.column.layers as usize);
        whole.to_ice.swap(&mut self.flights);
        self.exchange(whole);
    }
}
