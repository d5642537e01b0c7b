// A mesh as the code holds it: its sides, and its turn table as a word. Which channels it has, and
// which turns it allows.
ghost use Rattle.std.specs.Prelude.{◌≡◌, true, ◌*◌, ◌/◌, ◌%◌, ◌^◌, ◌<◌, ◌≤◌, eqb, IfSome, is_some};
ghost use Rattle.route.specs.Grid.{hop};
ghost use Rattle.route.specs.Turns.{bit};
ghost use Rattle.route.specs.Coded.{turned, meant};
ghost use Rattle.route.specs.Mesh.{Inside, exists, turn, ruled};
ghost use Rattle.route.specs.Numbers.{channels, arrival_of, facing, arriving, published};
ghost use Rattle.route.specs.Check.{bends};
ghost use Rattle.route.specs.Route.{from_mesh, arrives};

use crate::directions::{Arrival, Direction};
use crate::places::{Column, Place, at};
use crate::rules::Rule;

/// The sides of a mesh and its turn table. The table is 16 bits, 1 for allowed: NE, NW, SE, SW, EN,
/// ES, WN, WS in even columns, lowest first, then in odd ones.
#[derive(Clone, Copy, Debug, PartialEq, Eq)]
pub struct Mesh {
    pub columns: u8,
    pub rows: u8,
    pub table: u16,
}

/// The mesh of these sides under a published rule.
pub fn mesh_of(columns: u8, rows: u8, rule: Rule) -> Mesh
    ensures { meant result ≡ ruled (published rule) columns rows 0 }
{
    Mesh {
        columns,
        rows,
        table: rule.table(),
    }
}

// The bit at a place of a word.
fn bit_at(word: u16, place: u8) -> bool
    requires { place < 16 }
    ensures { result ≡ eqb (word / 2 ^ place % 2) 1 }
{
    (word >> place) % 2 == 1
}

// The place of a turn in an even column's bits: two turns for each way of travelling, in the order
// north, south, east, west; of the two the one to north or east comes first.
fn turn_bit(from: Direction, to: Direction) -> u8
    ensures bound { result < 8 }
    ensures value { result ≡ bit (turned (facing from) (facing to)) }
{
    let first = match from {
        Direction::North => 0,
        Direction::South => 2,
        Direction::East => 4,
        Direction::West => 6,
    };
    match to {
        Direction::North | Direction::East => first,
        Direction::South | Direction::West => first + 1,
    }
}

impl Mesh {
    /// How many nodes it has.
    pub fn nodes(self) -> u16
        ensures { result ≡ self.columns * self.rows }
    {
        (self.columns as u16) * (self.rows as u16)
    }

    /// How many numbers of channels it has: four a node.
    pub fn channels(self) -> usize
        ensures value { result ≡ channels self.columns self.rows }
        ensures bound { result ≤ 260100 }
    {
        4 * (self.nodes() as usize)
    }

    /// Does the channel that leaves a place in a direction exist?
    pub fn exists(self, here: Place, direction: Direction) -> bool
        requires { Inside (meant self) here }
        ensures { result ≡ exists (meant self) here (facing direction) }
    {
        match direction {
            Direction::West => 0 < here.column.0,
            Direction::East => here.column.0 + 1 < self.columns,
            Direction::South => 0 < here.row.0,
            Direction::North => here.row.0 + 1 < self.rows,
        }
    }

    /// The neighbour of a place in a direction in which a channel leads.
    pub fn hop(self, here: Place, direction: Direction) -> Place
        requires inside { Inside (meant self) here }
        requires exists { exists (meant self) here (facing direction) ≡ true }
        ensures { result ≡ hop (facing direction) here }
    {
        let column = here.column.0;
        let row = here.row.0;
        match direction {
            Direction::West => at(column - 1, row),
            Direction::East => at(column + 1, row),
            Direction::South => at(column, row - 1),
            Direction::North => at(column, row + 1),
        }
    }

    // Does this arrival come from the mesh? Whoever arrives travelling one way came over a channel
    // from the neighbour that lies the other way.
    fn comes_from(self, here: Place, arrival: Arrival) -> bool
        requires { Inside (meant self) here }
        ensures { result ≡ from_mesh (meant self) here (arriving arrival) }
    {
        match arrival {
            Arrival::Going(direction) => self.exists(here, direction.opposite()),
            Arrival::Local => true,
        }
    }

    /// The arrival of a number, if it is one of the five and comes from the mesh.
    pub fn arrives(self, here: Place, arrival: u8) -> Option<Arrival>
        requires { Inside (meant self) here }
        ensures known { is_some result ≡ arrives (meant self) here arrival }
        ensures arrival { IfSome result (λ a. arriving a ≡ arrival_of arrival) }
    {
        let arrival = Arrival::try_from(arrival).ok()?;
        if !self.comes_from(here, arrival) {
            return None;
        }
        Some(arrival)
    }

    /// May a packet that arrives so go on that way, in this column?
    pub fn turn_ok(self, column: Column, arrival: Arrival, direction: Direction) -> bool
        ensures { result ≡ turn (meant self) column.0 (arriving arrival) (facing direction) }
    {
        let Arrival::Going(from) = arrival else {
            return true;
        };
        if !from.bends(direction) {
            return from == direction;
        }
        bit_at(self.table, 8 * (column.0 % 2) + turn_bit(from, direction))
    }
}
