// The numbers that inputs are made of.
ghost use Rattle.std.specs.Prelude.{◌≡◌, ◌<◌, ◌^◌};
ghost use Rattle.cpl_made_grid.specs.Stream.{purpose_number, mixed, drawn};

/// What a number is drawn for. Each purpose has numbers of its own.
#[derive(Clone, Copy, Debug, PartialEq, Eq)]
pub enum Purpose {
    /// Whether a block of cells of the air lies over land.
    Block,
    /// Whether a cell of the ocean is land under such a block.
    Coast,
    /// The heat of a cell of the air.
    AirHeat,
    /// The vapour of a cell of the air.
    Vapour,
    /// The sun on a cell of the air.
    Sun,
    /// The heat of a cell of the land.
    LandHeat,
    /// The water of a cell of the land.
    LandWater,
    /// The heat of a cell of a layer of the ocean.
    OceanHeat,
}

// The place of a purpose among all.
fn purpose_number(purpose: Purpose) -> u64
    ensures value { result ≡ purpose_number purpose }
    ensures few { result < 16 }
{
    match purpose {
        Purpose::Block => 1,
        Purpose::Coast => 2,
        Purpose::AirHeat => 3,
        Purpose::Vapour => 4,
        Purpose::Sun => 5,
        Purpose::LandHeat => 6,
        Purpose::LandWater => 7,
        Purpose::OceanHeat => 8,
    }
}

// Mixes the bits of a number, one to one (the last steps of SplitMix64).
#[tactic(auto, unfolding(crate::specs::Stream::mixed))]
fn mixed(x: u64) -> u64
    ensures { result ≡ mixed x }
{
    let high = (x ^ (x >> 30)).wrapping_mul(0xBF58_476D_1CE4_E5B9);
    let low = (high ^ (high >> 27)).wrapping_mul(0x94D0_49BB_1331_11EB);
    low ^ (low >> 31)
}

/// The n-th number for a purpose, of all that `number` chooses. Any can be told by its place. Defined by this project.
#[tactic(auto, unfolding(crate::specs::Stream::drawn))]
pub fn drawn(number: u64, purpose: Purpose, n: u32) -> u64
    ensures { result ≡ drawn number purpose n }
{
    let place = (purpose_number(purpose) << 32) + u64::from(n);
    mixed(number.wrapping_add(place))
}
