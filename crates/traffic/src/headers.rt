// The headers of a traffic list, three bytes each, as a slice of their own.
ghost use Rattle.std.specs.Prelude.{◌≡◌, ◌∷◌, suc, ◌+◌, ◌<◌, ◌≤◌, length, get_or, drop};
ghost use Rattle.route.specs.Served.{refusal_of};
ghost use Rattle.wormhole.specs.Memory.{none};
ghost use Rattle.traffic.specs.Lists.{place_in, header, headers, after_lead, outside, bad_header, bad_headers, packets};

use route::{Column, Mesh, Place, Refusal, Row, node_of};
use wormhole::{MOST_FLITS, Record, fresh};

/// A packet as a list has it.
#[derive(Clone, Copy, Debug, PartialEq, Eq)]
pub struct Header {
    pub source: Place,
    pub destination: Place,
    pub flits: u16,
}

// The place in a byte.
fn place_in(byte: u8) -> Place
    ensures { result ≡ place_in byte }
{
    Place {
        column: Column(byte / 16),
        row: Row(byte % 16),
    }
}

// The header whose first byte stands at an index.
fn header_at(bytes: &[u8], at: usize) -> Header
    requires { at + 2 < length bytes.now }
    ensures { result ≡ header (get_or bytes.now at 0) (get_or bytes.now (at + 1) 0) (get_or bytes.now (at + 2) 0) }
{
    Header {
        source: place_in(bytes[at]),
        destination: place_in(bytes[at + 1]),
        flits: bytes[at + 2] as u16 + 1,
    }
}

/// The header of packet i of a list.
pub fn header_of(list: &[u8], i: usize) -> Header
    requires in_bounds { 2 ≤ length list.now }
    requires i_in_bounds { i < length (after_lead list.now) }
    ensures { drop i (after_lead list.now) ≡ result ∷ drop (suc i) (after_lead list.now) }
{
    header_at(&list[2..], 3 * i)
}

// Is a place outside a mesh?
fn is_outside(m: Mesh, place: Place) -> bool
    ensures { result ≡ outside m.columns m.rows place }
{
    (m.columns <= place.column.0) | (m.rows <= place.row.0)
}

// Can a header's packet be served? An offer asks the same of two nodes, not of two places, and in the
// definitions too these are two.
fn check_header(m: Mesh, h: Header) -> Result<(), Refusal>
    ensures { refusal_of result ≡ bad_header m.columns m.rows h }
{
    let off = is_outside(m, h.source) | is_outside(m, h.destination);
    let served = (1..=MOST_FLITS as u16).contains(&h.flits);
    let still = h.source == h.destination;
    if off {
        return Err(Refusal::BadNode);
    }
    if !served {
        return Err(Refusal::BadFlits);
    }
    if still {
        return Err(Refusal::SameNode);
    }
    Ok(())
}

/// Can the packets of all headers be served?
pub fn check_headers(m: Mesh, bytes: &[u8]) -> Result<(), Refusal>
    ensures { refusal_of result ≡ bad_headers m.columns m.rows (headers bytes.now) }
{
    for i in 0..bytes.len() / 3 {
        check_header(m, header_at(bytes, 3 * i))?;
    }
    Ok(())
}

// The record of header i's packet at its source, an empty one past the last.
fn packet_of(bytes: &[u8], m: Mesh, i: usize) -> Record
    requires { bad_headers m.columns m.rows (headers bytes.now) ≡ 0 }
    ensures { result ≡ get_or (packets m.columns (headers bytes.now)) i none }
{
    if bytes.len() / 3 <= i {
        return Record::default();
    }
    let h = header_at(bytes, 3 * i);
    fresh(
        node_of(m.columns, h.source),
        node_of(m.columns, h.destination),
        h.flits as u8,
    )
}

/// The record of packet i of a list, an empty one past the last.
pub fn packet_at(list: &[u8], m: Mesh, i: usize) -> Record
    requires in_bounds { 2 ≤ length list.now }
    requires headers_served { bad_headers m.columns m.rows (after_lead list.now) ≡ 0 }
    ensures { result ≡ get_or (packets m.columns (after_lead list.now)) i none }
{
    packet_of(&list[2..], m, i)
}
