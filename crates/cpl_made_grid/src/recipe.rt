// What an input is made by.

/// What an input is made by: a number that chooses among the inputs of a size, and the size, 1 to 64.
#[derive(Clone, Copy, Debug, PartialEq, Eq)]
pub struct Recipe {
    pub number: u64,
    pub size: u32,
}
