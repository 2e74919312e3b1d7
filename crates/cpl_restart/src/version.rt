// The versions of a restart.

/// The versions of a restart: in the second each section is followed by its sum.
#[derive(Clone, Copy)]
pub(crate) enum Version {
    First,
    Second,
}
