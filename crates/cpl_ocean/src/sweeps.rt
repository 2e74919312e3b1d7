// The parts of a step, layer by layer.
ghost use Rattle.std.specs.Prelude.{◌≡◌, ◌<◌, ◌≤◌, ℕ, length};
ghost use Rattle.cpl_field.specs.Spots.{number_at};
ghost use Rattle.cpl_ocean.specs.Layers.{AreLayersOf, EachLayer, layer_at};
ghost use Rattle.cpl_ocean.specs.Numbers.{DrivesLayer};
ghost use Rattle.cpl_ocean.specs.Sweeps.{CanSweep, IsBasin, SweepsLayer};
ghost use Rattle.cpl_ocean.specs.Zones.{IsIn};

use crate::basin::Basin;
use crate::layer::Layer;
use crate::zone::Zone;

/// Computes what the transport leaves in the cells of a zone in all layers.
pub(crate) fn transport(basin: &Basin, slope: u32, zone: Zone, layers: &mut [Layer])
    requires { (l : ℕ) → l < length layers.old → CanSweep basin.now slope (layer_at layers.old l) }
    ensures { EachLayer (SweepsLayer basin.now slope (IsIn zone basin.now.area)) layers.old layers.new }
{
    for l in 0..layers.len() {
        layers[l].transport(basin, slope, zone);
    }
}

/// Sets the numbers of all faces to what they are after a step.
pub(crate) fn drive_layers(basin: &Basin, slope: u32, layers: &mut [Layer])
    requires slope { slope ≤ 40 }
    requires basin { IsBasin basin.now }
    requires layers { AreLayersOf basin.now.area layers.old }
    ensures { EachLayer (DrivesLayer basin.now.area (number_at basin.now.heights) slope) layers.old layers.new }
{
    for l in 0..layers.len() {
        layers[l].drive(basin, slope);
    }
}
