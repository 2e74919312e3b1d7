// What a cell gains.

/// What a cell gains in a step, below 0 where it loses: units of heat and of water. Runoff is told so too.
#[derive(Clone, Copy, Debug, PartialEq, Eq)]
pub struct Gain {
    pub heat: i64,
    pub water: i64,
}
