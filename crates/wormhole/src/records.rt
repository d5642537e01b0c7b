// Packet records.
ghost use Rattle.std.specs.Prelude.{◌≡◌};
ghost use Rattle.wormhole.specs.Memory.{fresh};

/// A packet's record, with the fields that C has: `live` is 1, and 0 in an empty one, which is all zero;
/// `rear` and `front` are 0, or 1 + the oldest and the newest channel held.
#[repr(C)]
#[derive(Clone, Copy, Debug, Default, PartialEq, Eq)]
pub struct Record {
    pub live: u8,
    pub source: u16,
    pub destination: u16,
    pub flits: u8,
    pub waiting: u8,
    pub eaten: u8,
    pub rear: u16,
    pub front: u16,
}

/// The record of a packet that is at its source.
pub fn fresh(source: u16, destination: u16, flits: u8) -> Record
    ensures { result ≡ fresh source destination flits }
{
    Record {
        live: 1,
        source,
        destination,
        flits,
        waiting: flits,
        eaten: 0,
        rear: 0,
        front: 0,
    }
}
