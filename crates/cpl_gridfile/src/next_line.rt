// Which line comes next.
ghost use Rattle.std.specs.Prelude.{◌≡◌, Some};
ghost use Rattle.cpl_gridfile.specs.MeshFormat.{mosaic_word, next_tile, next_row, next_contact};
ghost use Rattle.cpl_gridfile.specs.GridFormat.{head_word, count_word, item_word, most_items, most_amount, of_mesh, after_mesh, next_item, after_list};

use cpl_fixed::{MOST_AREA, MOST_EXCHANGE_CELLS, MOST_OUTLETS, MOST_WEIGHT};

/// The meshes of a grid, in the order of its text.
#[derive(Clone, Copy, Debug, PartialEq, Eq)]
pub(crate) enum GridMesh {
    Atmos,
    Land,
    Ocean,
}

impl GridMesh {
    /// The word of the line with which the mesh begins.
    pub(crate) fn word(self) -> &'static [u8]
        ensures { result.now ≡ mosaic_word self }
    {
        match self {
            GridMesh::Atmos => b"mosaic atmos",
            GridMesh::Land => b"mosaic land",
            GridMesh::Ocean => b"mosaic ocean",
        }
    }
}

/// Which line of a mesh comes next. Of tiles, rows and contacts it tells how many come after that line.
#[derive(Clone, Copy, Debug, PartialEq, Eq)]
pub(crate) enum MeshLine {
    Mosaic,
    /// The tiles before have this many cells.
    Tile {
        more: u32,
        cells: u32,
    },
    /// A row of `nx` areas.
    Area {
        nx: u32,
        rows: u32,
        more: u32,
        cells: u32,
    },
    Contacts,
    Contact {
        more: u32,
    },
}

impl MeshLine {
    /// Where this many tiles are still to come.
    pub(crate) fn tiles(count: u32, cells: u32) -> MeshLine
        ensures { next_tile count cells ≡ Some result }
    {
        match count.checked_sub(1) {
            Some(more) => MeshLine::Tile { more, cells },
            None => MeshLine::Contacts,
        }
    }

    /// Where this many rows of a tile are still to come, and this many tiles after it.
    pub(crate) fn rows(nx: u32, count: u32, more: u32, cells: u32) -> MeshLine
        ensures { next_row nx count more cells ≡ Some result }
    {
        match count.checked_sub(1) {
            Some(rows) => MeshLine::Area {
                nx,
                rows,
                more,
                cells,
            },
            None => MeshLine::tiles(more, cells),
        }
    }

    /// Where this many contacts are still to come. Nothing of the mesh comes after the last.
    pub(crate) fn contacts(count: u32) -> Option<MeshLine>
        ensures { next_contact count ≡ result }
    {
        match count.checked_sub(1) {
            Some(more) => Some(MeshLine::Contact { more }),
            None => None,
        }
    }
}

/// The two kinds of grids.
#[derive(Clone, Copy, Debug, PartialEq, Eq)]
pub(crate) enum GridKind {
    Air,
    Coupled,
}

impl GridKind {
    /// The first line without its line feed.
    pub(crate) fn word(self) -> &'static [u8]
        ensures { result.now ≡ head_word self }
    {
        match self {
            GridKind::Air => b"grid 1 air",
            GridKind::Coupled => b"grid 1 coupled",
        }
    }
}

/// The lists of a coupled grid, in the order of its text.
#[derive(Clone, Copy, Debug, PartialEq, Eq)]
pub(crate) enum GridList {
    Land,
    Ocean,
    Outlets,
}

impl GridList {
    /// The word of the line with the number of items.
    pub(crate) fn word(self) -> &'static [u8]
        ensures { result.now ≡ count_word self }
    {
        match self {
            GridList::Land => b"xgrid land",
            GridList::Ocean => b"xgrid ocean",
            GridList::Outlets => b"outlets",
        }
    }

    /// The word of an item's line.
    pub(crate) fn item_word(self) -> &'static [u8]
        ensures { result.now ≡ item_word self }
    {
        match self {
            GridList::Land | GridList::Ocean => b"x",
            GridList::Outlets => b"o",
        }
    }

    /// How many items there may be, with those of the land's list counted in that of the ocean's.
    pub(crate) fn most(self) -> u32
        ensures { result ≡ most_items self }
    {
        match self {
            GridList::Land | GridList::Ocean => MOST_EXCHANGE_CELLS,
            GridList::Outlets => MOST_OUTLETS,
        }
    }

    /// The most that an item's area or weight may be.
    pub(crate) fn most_amount(self) -> u64
        ensures { result ≡ most_amount self }
    {
        match self {
            GridList::Land | GridList::Ocean => MOST_AREA,
            GridList::Outlets => MOST_WEIGHT,
        }
    }
}

/// Which line of a grid comes next.
#[derive(Clone, Copy, Debug, PartialEq, Eq)]
pub(crate) enum NextLine {
    Head,
    Mesh {
        mesh: GridMesh,
        line: MeshLine,
    },
    Column,
    /// The number of a list's items. This many exchange cells are in the lists before.
    Count {
        list: GridList,
        before: u32,
    },
    /// An item of a list, with this many after it. `total` counts those of the list and of the lists before.
    Item {
        list: GridList,
        total: u32,
        more: u32,
    },
    End,
    Nothing,
}

impl NextLine {
    /// Which line of a grid comes next, given which line of a mesh comes next, if any.
    pub(crate) fn of_mesh(kind: GridKind, mesh: GridMesh, line: Option<MeshLine>) -> NextLine
        ensures { result ≡ of_mesh kind mesh line }
    {
        match line {
            Some(line) => NextLine::Mesh { mesh, line },
            None => NextLine::after_mesh(kind, mesh),
        }
    }

    // Which line comes after a mesh.
    fn after_mesh(kind: GridKind, mesh: GridMesh) -> NextLine
        ensures { result ≡ after_mesh kind mesh }
    {
        let next = match (kind, mesh) {
            (GridKind::Air, _) => return NextLine::End,
            (GridKind::Coupled, GridMesh::Atmos) => GridMesh::Land,
            (GridKind::Coupled, GridMesh::Land) => GridMesh::Ocean,
            (GridKind::Coupled, GridMesh::Ocean) => return NextLine::Column,
        };
        NextLine::Mesh {
            mesh: next,
            line: MeshLine::Mosaic,
        }
    }

    /// Where this many items of a list are still to come.
    pub(crate) fn items(list: GridList, total: u32, count: u32) -> NextLine
        ensures { result ≡ next_item list total count }
    {
        match count.checked_sub(1) {
            Some(more) => NextLine::Item { list, total, more },
            None => NextLine::after_list(list, total),
        }
    }

    // Which line comes after a list.
    fn after_list(list: GridList, total: u32) -> NextLine
        ensures { result ≡ after_list list total }
    {
        match list {
            GridList::Land => NextLine::Count {
                list: GridList::Ocean,
                before: total,
            },
            GridList::Ocean => NextLine::Count {
                list: GridList::Outlets,
                before: 0,
            },
            GridList::Outlets => NextLine::End,
        }
    }
}
