// Where exchange cells, outlets and cells of a piece stand.
ghost use Rattle.std.specs.Prelude.{◌≡◌, ◌<◌, length, IfOk};
ghost use Rattle.cpl_layout.specs.Owners.{IsPiece};
ghost use Rattle.cpl_wires.specs.Settings.{piece_count, cells_of_piece};
ghost use Rattle.cpl_wires.specs.Purposes.{receiver};
ghost use Rattle.cpl_wires.specs.Laws.{IsOf};
ghost use Rattle.cpl_wires.specs.Edges.{edges_of, edge_at};
ghost use Rattle.cpl_rows.specs.Rows.{AreRowPlaces, AreOwnPlaces, TakesRows, CarriesCells, cells_on, items_on};
ghost use Rattle.cpl_rows.specs.Ends.{own_items};

use crate::ends::{End, items_in, places_in};
use crate::find::places_of;
use crate::place::{RowPlace, RowPlaces};
use cpl_layout::Piece;
use cpl_wires::{Edge, Exchanges, Purpose};
use cpl_xgrid::Groups;
use std::alloc::{AllocError, Global};

// The cells of a piece.
fn cells_of(exchanges: &Exchanges, piece: u32) -> Piece
    requires { piece < piece_count exchanges.now }
    ensures cells { result ≡ cells_of_piece exchanges.now piece }
    ensures inside { IsPiece result }
{
    // The contract of `names` has the rules of the setting.
    let _names = exchanges.names();
    let component = exchanges.component(piece);
    let layout = exchanges.layout(component);
    layout.piece(piece - exchanges.base(component))
}

// The exchange cells or outlets of a purpose that the cells of a piece take, in the order of the file.
fn own_items(
    alloc: Global,
    exchanges: &Exchanges,
    piece: u32,
    purpose: Purpose,
) -> Result<Vec<u32>, AllocError>
    requires purpose { TakesRows purpose }
    requires piece { IsOf exchanges.now 0 (receiver purpose) piece }
    ensures { IfOk result (λ items. items.items ≡ own_items exchanges.now piece purpose) }
{
    // The contract of `names` has the rules of the setting.
    let _names = exchanges.names();
    let grid = exchanges.grid();
    let component = exchanges.component(piece);
    let layout = exchanges.layout(component);
    let p = piece - exchanges.base(component);
    items_in(alloc, grid, purpose, End::To, layout, p)
}

/// Of each cell of a piece, row by row, where its exchange cells, or its outlets, stand in the lists of a purpose that the piece takes,
/// in the order of the file. It takes time linear in all exchange cells of the purpose's list, or in all outlets, and memory linear in
/// those of the piece. Defined by this project.
pub fn row_places(
    alloc: Global,
    exchanges: &Exchanges,
    piece: u32,
    purpose: Purpose,
) -> Result<RowPlaces, AllocError>
    requires purpose { TakesRows purpose }
    requires piece { IsOf exchanges.now 0 (receiver purpose) piece }
    ensures { IfOk result (λ rows. AreRowPlaces exchanges.now piece purpose rows) }
{
    let _names = exchanges.names();
    let cells = cells_of(exchanges, piece);
    let items = own_items(alloc, exchanges, piece, purpose)?;
    let keys = places_in(alloc, exchanges.grid(), purpose, End::To, cells, &items)?;
    let places = places_of(alloc, exchanges, exchanges.taken(piece, purpose), &items)?;
    Groups::by_key(alloc, &keys, cells.nx * cells.ny)?.pick(
        alloc,
        &places,
        RowPlace { edge: 0, place: 0 },
    )
}

/// Of each exchange cell, outlet or cell that an edge carries, in order, where its cell stands among those of the piece that posts. An
/// edge that carries none has none. Defined by this project.
pub fn posted_places(
    alloc: Global,
    exchanges: &Exchanges,
    edge: u32,
) -> Result<Vec<u32>, AllocError>
    requires { edge < length (edges_of exchanges.now) }
    ensures { IfOk result (λ places. AreOwnPlaces exchanges.now (edge_at exchanges.now edge).from (cells_on exchanges.now edge) places.items) }
{
    let _names = exchanges.names();
    let Edge { purpose, from, .. } = exchanges.edge(edge);
    let cells = cells_of(exchanges, from);
    places_in(
        alloc,
        exchanges.grid(),
        purpose,
        End::From,
        cells,
        exchanges.carried(edge),
    )
}

/// Of each cell that an edge between the ice and the ocean carries, in order, where it stands among those of the piece that takes.
/// Defined by this project.
pub fn taken_places(alloc: Global, exchanges: &Exchanges, edge: u32) -> Result<Vec<u32>, AllocError>
    requires edge { edge < length (edges_of exchanges.now) }
    requires cells { CarriesCells (edge_at exchanges.now edge).purpose }
    ensures { IfOk result (λ places. AreOwnPlaces exchanges.now (edge_at exchanges.now edge).to (items_on exchanges.now edge) places.items) }
{
    let _names = exchanges.names();
    let Edge { purpose, to, .. } = exchanges.edge(edge);
    let cells = cells_of(exchanges, to);
    places_in(
        alloc,
        exchanges.grid(),
        purpose,
        End::To,
        cells,
        exchanges.carried(edge),
    )
}
