// The zones of a piece.

/// Which cells of a piece are swept: those with at least two cells of the piece between them and each of its edges, or the
/// others.
#[derive(Clone, Copy)]
pub(crate) enum Zone {
    Inner,
    Rim,
}
