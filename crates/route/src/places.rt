// Places of a mesh. A column and a row are types of their own, so that neither stands for the other.
ghost use Rattle.std.specs.Prelude.{◌≡◌, ◌+◌, ◌*◌, ◌<◌, ltb};
ghost use Rattle.route.specs.Grid.{pick, horiz, vert, less, more, go, at, gap};
ghost use Rattle.route.specs.Numbers.{node, place_of, facing};

use crate::directions::Direction;

#[derive(Clone, Copy, Debug, PartialEq, Eq)]
pub struct Column(pub u8);

#[derive(Clone, Copy, Debug, PartialEq, Eq)]
pub struct Row(pub u8);

#[derive(Clone, Copy, Debug, PartialEq, Eq)]
pub struct Place {
    pub column: Column,
    pub row: Row,
}

/// The place in a column and a row.
pub fn at(column: u8, row: u8) -> Place
    ensures { result ≡ at column row }
{
    Place {
        column: Column(column),
        row: Row(row),
    }
}

/// The number of the node at a place, in a mesh of so many columns.
pub fn node_of(columns: u8, here: Place) -> u16
    ensures { result ≡ node columns here }
{
    (here.row.0 as u16) * (columns as u16) + (here.column.0 as u16)
}

/// The place of a node, by its number in a mesh of so many columns.
pub fn place_of(columns: u8, node: u16) -> Place
    requires columns_nonzero { 0 < columns }
    requires node_bound { node < 256 * columns }
    ensures { result ≡ place_of columns node }
{
    let wide = columns as u16;
    let column = (node % wide) as u8;
    let row = (node / wide) as u8;
    at(column, row)
}

// What follows is said of columns and again of rows: a trait over both would be longer, since only the
// names of the directions differ.
impl Column {
    /// The direction that leads to another column: east, or west where that does not lie east.
    pub fn way(self, to: Column) -> Direction
        ensures { facing result ≡ go horiz (pick (ltb self.0 to.0) more less) }
    {
        if self.0 < to.0 {
            Direction::East
        } else {
            Direction::West
        }
    }

    /// How many hops along the row lead to another column.
    pub fn hops(self, to: Column) -> u8
        ensures { result ≡ gap self.0 to.0 }
    {
        self.0.abs_diff(to.0)
    }
}

impl Row {
    /// The direction that leads to another row: north, or south where that does not lie north.
    pub fn way(self, to: Row) -> Direction
        ensures { facing result ≡ go vert (pick (ltb self.0 to.0) more less) }
    {
        if self.0 < to.0 {
            Direction::North
        } else {
            Direction::South
        }
    }

    /// How many hops along the column lead to another row.
    pub fn hops(self, to: Row) -> u8
        ensures { result ≡ gap self.0 to.0 }
    {
        self.0.abs_diff(to.0)
    }
}
