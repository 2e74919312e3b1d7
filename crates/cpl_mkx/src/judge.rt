// Judging boxes whose lines are read.
ghost use Rattle.std.specs.Prelude.{◌≡◌, ◌<◌, ◌^◌, length};
ghost use Rattle.cpl_mkx.specs.Rules.{rises, is_odd_fold, order_fault, fold_fault, boxes_fault};
ghost use Rattle.cpl_mkx.specs.Readers.{pair_of};

use crate::BoxesError;
use crate::reader::Reader;
use cpl_fixed::Component;

// Whether each edge lies above the one before.
fn rises(edges: &[i64]) -> bool
    ensures { result ≡ rises edges.now }
{
    let mut rest = edges;
    while let [edge, others @ ..] = rest {
        if let [next, ..] = others {
            if next <= edge {
                return false;
            }
        }
        rest = others;
    }
    true
}

// The first line whose edges don't rise.
fn order_fault(reader: &Reader) -> Option<BoxesError>
    ensures { result ≡ order_fault (pair_of reader.now) }
{
    if !rises(&reader.air.x) {
        Some(BoxesError::Order(3))
    } else if !rises(&reader.air.y) {
        Some(BoxesError::Order(4))
    } else if !rises(&reader.ocean.x) {
        Some(BoxesError::Order(6))
    } else if !rises(&reader.ocean.y) {
        Some(BoxesError::Order(7))
    } else {
        None
    }
}

// Whether an odd number of columns is folded.
fn is_odd_fold(x: &[i64], fold: bool) -> bool
    ensures { result ≡ is_odd_fold x.now fold }
{
    fold && x.len().saturating_sub(1) % 2 == 1
}

// The first grid with an odd fold.
fn fold_fault(reader: &Reader) -> Option<BoxesError>
    ensures { result ≡ fold_fault (pair_of reader.now) }
{
    if is_odd_fold(&reader.air.x, reader.air.fold) {
        Some(BoxesError::OddFold(Component::Atmos))
    } else if is_odd_fold(&reader.ocean.x, reader.ocean.fold) {
        Some(BoxesError::OddFold(Component::Ocean))
    } else {
        None
    }
}

/// The first rule that boxes break.
pub(crate) fn boxes_fault(reader: &Reader) -> Option<BoxesError>
    ensures { result ≡ boxes_fault (pair_of reader.now) }
{
    match order_fault(reader) {
        Some(fault) => Some(fault),
        None => fold_fault(reader),
    }
}
