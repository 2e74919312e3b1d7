// Exchanges beside what is written out.
use crate::worlds::Question;
use cpl_core::Act;
use cpl_wires::{Edge, Exchanges, Purpose};
use std::alloc::{AllocError, Global};

/// An action, by the number of its edge.
#[derive(Clone, Copy)]
pub(crate) enum Wanted {
    Post(u32),
    Take(u32),
    Compute,
}

fn act(wanted: Wanted) -> Act {
    match wanted {
        Wanted::Post(edge) => Act::Post { edge },
        Wanted::Take(edge) => Act::Take { edge },
        Wanted::Compute => Act::Compute,
    }
}

/// An edge by its purpose and its pieces, how many numbers a use has, how many uses there are, and what it carries numbers of.
pub(crate) type Row = (Purpose, u32, u32, usize, u64, &'static [u32]);

// Whether these are all edges.
fn edges_are(exchanges: &Exchanges, wanted: &[Row]) -> bool {
    if exchanges.edge_count() as usize != wanted.len() {
        return false;
    }
    for (number, (purpose, from, to, len, uses, carried)) in wanted.iter().enumerate() {
        let number = number as u32;
        let (purpose, from, to) = (*purpose, *from, *to);
        let found = exchanges.edge(number) == (Edge { purpose, from, to })
            && exchanges.len(number) == *len
            && exchanges.uses(number) == *uses
            && exchanges.carried(number) == *carried;
        if !found {
            return false;
        }
    }
    true
}

// Whether these are all actions of a piece.
fn script_is(exchanges: &Exchanges, piece: u32, wanted: &[Wanted]) -> bool {
    if piece >= exchanges.piece_count() || exchanges.actions(piece) != wanted.len() as u64 {
        return false;
    }
    for (m, wanted) in wanted.iter().enumerate() {
        match exchanges.stop(piece, m as u64) {
            Some(stop) if stop.act == act(*wanted) => {}
            _ => return false,
        }
    }
    exchanges.stop(piece, wanted.len() as u64).is_none()
}

/// Whether these are all edges.
#[derive(Drop)]
pub(crate) struct Edges {
    pub(crate) rows: &'static [Row],
}

impl Question for Edges {
    fn holds(&self, _alloc: Global, exchanges: &Exchanges) -> Result<bool, AllocError> {
        Ok(edges_are(exchanges, self.rows))
    }
}

/// Whether these are all actions of the pieces, from the first one on.
#[derive(Drop)]
pub(crate) struct Scripts {
    pub(crate) scripts: &'static [&'static [Wanted]],
}

impl Question for Scripts {
    fn holds(&self, _alloc: Global, exchanges: &Exchanges) -> Result<bool, AllocError> {
        let mut piece: u32 = 0;
        for script in self.scripts {
            if !script_is(exchanges, piece, script) {
                return Ok(false);
            }
            piece = piece.wrapping_add(1);
        }
        Ok(piece == exchanges.piece_count())
    }
}
