// Channels. Each leaves a place in one of the four directions; its number is four times the number
// of the node that it leaves, and its direction's.
ghost use Rattle.std.specs.Prelude.{◌≡◌, ◌*◌, ◌<◌};
ghost use Rattle.route.specs.Numbers.{node, facing};
ghost use Rattle.route.specs.Channels.{channel, start, way, is_channel};
ghost use Rattle.route.specs.Coded.{meant};

use crate::directions::Direction;
use crate::meshes::Mesh;
use crate::places::{Place, node_of, place_of};

#[derive(Clone, Copy, Debug, PartialEq, Eq)]
pub struct Channel {
    pub start: Place,
    pub way: Direction,
}

/// The channel of a number, in a mesh of so many columns.
pub fn channel_of(columns: u8, number: u16) -> Channel
    requires columns_nonzero { 0 < columns }
    requires number_bound { number < 1024 * columns }
    ensures start { result.start ≡ start columns number }
    ensures way { facing result.way ≡ way number }
{
    Channel {
        start: place_of(columns, number / 4),
        way: Direction::of_channel(number),
    }
}

/// Is this the number of a channel that exists?
pub fn is_channel(m: Mesh, number: u16) -> bool
    ensures { result ≡ is_channel (meant m) number }
{
    if m.channels() <= number as usize {
        return false;
    }
    let channel = channel_of(m.columns, number);
    m.exists(channel.start, channel.way)
}

impl Channel {
    /// The number of the channel, in a mesh of so many columns.
    pub fn number(self, columns: u8) -> u16
        requires { node columns self.start < 16384 }
        ensures { result ≡ channel columns self.start (facing self.way) }
    {
        4 * node_of(columns, self.start) + (self.way.number() as u16)
    }
}
