// The two sides of an element, and what flows between them.

/// What a part of the surface is made of.
#[derive(Clone, Copy, Debug, PartialEq, Eq)]
pub enum Kind {
    /// Land.
    Land,
    /// Open water, whose amounts are those of the skin.
    Water,
    /// A category of the ice.
    Ice,
}

/// A cell of the air before the step: its heat, its vapour and its area. None is negative, and the area isn't 0.
#[derive(Clone, Copy, Debug, PartialEq, Eq)]
pub struct AirSide {
    pub heat: i64,
    pub vapour: i64,
    pub area: i64,
}

/// A part of the surface before the step: its heat, its water or ice, and its area, which is the sum over its elements. None is
/// negative.
#[derive(Clone, Copy, Debug, PartialEq, Eq)]
pub struct Part {
    pub kind: Kind,
    pub heat: i64,
    pub mass: i64,
    pub area: i64,
}

/// What is worked out once for a cell of the air: its temperature in millikelvin, and its humidity on the scale of saturation.
#[derive(Clone, Copy, Debug, PartialEq, Eq)]
pub struct Weather {
    pub temperature: u32,
    pub humidity: u32,
}

/// What flows through an element in a fast step: heat from the air to the surface, below 0 where the surface gives it, and water
/// from the surface to the air, which takes the heat of its vapour along beside this heat.
#[derive(Clone, Copy, Debug, PartialEq, Eq)]
pub struct Flux {
    pub heat: i64,
    pub water: i64,
}
