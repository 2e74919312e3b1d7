// Cells with water, heat and salt: what leaves them and comes to them, and what the layers of a column exchange.
ghost use Rattle.std.specs.Prelude.{◌≡◌, ◌≤◌, ◌+ℤ◌};
ghost use Rattle.cpl_ice.specs.declared.parts.Salty.{Salty};
ghost use Rattle.cpl_transport.specs.Cells.{AreFew, IsFew, exchanged_cells};
ghost use Rattle.cpl_transport.specs.Salts.{AreSmall, IsSalty, IsSmall, joined, without};

use crate::mixing::exchanged;
use cpl_ice::Salty;

// Four small numbers together.
#[inline]
fn sum(west: i64, east: i64, south: i64, north: i64) -> i64
    requires west { IsSmall west }
    requires east { IsSmall east }
    requires south { IsSmall south }
    requires north { IsSmall north }
    ensures value { result ≡ (west +ℤ east) +ℤ (south +ℤ north) }
    ensures few { IsFew result }
{
    west + east + (south + north)
}

/// What moves through the four sides of a cell together, of water, heat and salt: from each side up to 2^60 of each, either way,
/// so up to 2^62 together.
#[inline]
pub fn sum_of_sides(west: Salty, east: Salty, south: Salty, north: Salty) -> Salty
    requires west { AreSmall west }
    requires east { AreSmall east }
    requires south { AreSmall south }
    requires north { AreSmall north }
    ensures value { result ≡ joined (joined west east) (joined south north) }
    ensures few { AreFew result }
{
    Salty {
        water: sum(west.water, east.water, south.water, north.water),
        heat: sum(west.heat, east.heat, south.heat, north.heat),
        salt: sum(west.salt, east.salt, south.salt, north.salt),
    }
}

/// A cell with what comes to it, which together are no more than a cell may hold: water, heat and salt each for itself.
#[inline]
pub fn joined(here: Salty, more: Salty) -> Salty
    requires here { IsSalty here }
    requires more { IsSalty more }
    requires together { IsSalty (joined here more) }
    ensures { result ≡ joined here more }
{
    Salty {
        water: here.water + more.water,
        heat: here.heat + more.heat,
        salt: here.salt + more.salt,
    }
}

/// A cell without what moves out of it, up to 2^62 of water, heat and salt, either way: each for itself.
#[inline]
pub fn without(here: Salty, out: Salty) -> Salty
    requires here { IsSalty here }
    requires out { AreFew out }
    ensures { result ≡ without here out }
{
    Salty {
        water: here.water - out.water,
        heat: here.heat - out.heat,
        salt: here.salt - out.salt,
    }
}

/// What passes in a step from a cell to the one below it, less what comes up: of water, heat and salt each as `exchanged` says.
#[inline]
pub fn exchanged_cells(mix: u32, upper: Salty, lower: Salty) -> Salty
    requires mix { (2 ≤ mix) × (mix ≤ 40) }
    requires upper { IsSalty upper }
    requires lower { IsSalty lower }
    ensures value { result ≡ exchanged_cells mix upper lower }
    ensures small { AreSmall result }
{
    Salty {
        water: exchanged(mix, upper.water, lower.water),
        heat: exchanged(mix, upper.heat, lower.heat),
        salt: exchanged(mix, upper.salt, lower.salt),
    }
}

/// A cell of a lower layer after the vertical exchange: with what comes from above and without what passes down.
#[inline]
pub fn after_exchange(here: Salty, from_above: Salty, down: Salty) -> Salty
    requires here { IsSalty here }
    requires from_above { AreSmall from_above }
    requires down { AreSmall down }
    ensures { result ≡ without (joined here from_above) down }
{
    Salty {
        water: here.water + from_above.water - down.water,
        heat: here.heat + from_above.heat - down.heat,
        salt: here.salt + from_above.salt - down.salt,
    }
}
