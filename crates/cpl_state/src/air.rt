// The state of the air alone.
use cpl_fixed::List;

/// The air alone: the heat and the vapour of each cell in whole order, none of them negative.
#[derive(Drop)]
pub struct Air {
    pub heat: List<i64>,
    pub vapour: List<i64>,
}
