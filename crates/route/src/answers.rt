// The routing answer at a place. Whoever goes along the column here may as well go all of it here;
// whoever goes along the row needs a column ahead to turn in, and the destination's or the one
// beside it is as good as any. So a few turns tell whether a shortest legal path begins that way.
ghost use Rattle.std.specs.Prelude.{◌≡◌, ◌||◌, ◌+◌, ◌^◌, ◌≤◌, ltb};
ghost use Rattle.route.specs.Grid.{pick, horiz, vert, less, more, go, gap, west, east, south, north};
ghost use Rattle.route.specs.Mesh.{Inside};
ghost use Rattle.route.specs.Coded.{meant};
ghost use Rattle.route.specs.Numbers.{number, facing, arriving};
ghost use Rattle.route.specs.Paths.{answer};
ghost use Rattle.route.specs.Route.{outputs};

use crate::directions::{Arrival, Direction};
use crate::meshes::Mesh;
use crate::places::{Column, Place};

// The set at the destination. Sets are bits of a number, as C has them.
const DELIVER: u8 = 16;

// What leads from a place to a destination: `h` along the row, `v` along the column; `dx` columns and
// `dy` rows are to go.
#[derive(Clone, Copy)]
struct Course {
    h: Direction,
    v: Direction,
    dx: u8,
    dy: u8,
}

// The course from a place to a destination.
fn course_to(here: Place, there: Place) -> Course
    ensures { (facing result.h ≡ go horiz (pick (ltb here.column.0 there.column.0) more less))
        × (facing result.v ≡ go vert (pick (ltb here.row.0 there.row.0) more less))
        × (result.dx ≡ gap here.column.0 there.column.0)
        × (result.dy ≡ gap here.row.0 there.row.0) }
{
    Course {
        h: here.column.way(there.column),
        v: here.row.way(there.row),
        dx: here.column.hops(there.column),
        dy: here.row.hops(there.row),
    }
}

// Does a shortest legal path begin along the row?
fn row_leads(m: Mesh, here: Place, arrival: Arrival, there: Place) -> bool
    requires { Inside (meant m) there }
    ensures { result ≡ answer (meant m) here (arriving arrival) there west
        || answer (meant m) here (arriving arrival) there east }
{
    let c = course_to(here, there);
    if c.dx == 0 {
        return false;
    }
    if !m.turn_ok(here.column, arrival, c.h) {
        return false;
    }
    if c.dy == 0 {
        return true;
    }
    if m.turn_ok(there.column, Arrival::Going(c.h), c.v) {
        return true;
    }
    if c.dx == 1 {
        return false;
    }
    // Turns go by parity, so the column past the destination's stands for the one before it.
    let past = there.column.0 + 1;
    let beside = Column(past);
    if !m.turn_ok(beside, Arrival::Going(c.h), c.v) {
        return false;
    }
    m.turn_ok(beside, Arrival::Going(c.v), c.h)
}

// Does a shortest legal path begin along the column?
fn column_leads(m: Mesh, here: Place, arrival: Arrival, there: Place) -> bool
    requires { Inside (meant m) there }
    ensures { result ≡ answer (meant m) here (arriving arrival) there south
        || answer (meant m) here (arriving arrival) there north }
{
    let c = course_to(here, there);
    if c.dy == 0 {
        return false;
    }
    if !m.turn_ok(here.column, arrival, c.v) {
        return false;
    }
    if c.dx == 0 {
        return true;
    }
    m.turn_ok(here.column, Arrival::Going(c.v), c.h)
}

// A direction's value in a set where it is in it, else 0.
fn value_if(member: bool, direction: Direction) -> u8
    ensures bound { result ≤ 8 }
    ensures value { result ≡ pick member (2 ^ number (facing direction)) 0 }
{
    if member {
        return 1 << direction.number();
    }
    0
}

/// The set of outputs at a place for a packet that arrives so and goes there; 0 where no shortest
/// path is legal.
pub fn outputs_at(m: Mesh, here: Place, arrival: Arrival, there: Place) -> u8
    requires { Inside (meant m) there }
    ensures { result ≡ outputs (meant m) here (arriving arrival) there }
{
    if here == there {
        return DELIVER;
    }
    let c = course_to(here, there);
    let along_row = value_if(row_leads(m, here, arrival, there), c.h);
    let along_column = value_if(column_leads(m, here, arrival, there), c.v);
    along_row + along_column
}
