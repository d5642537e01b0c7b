// The four directions in which channels lead, and how a packet comes to a node.
ghost use Rattle.std.specs.Prelude.{◌≡◌, ◌%◌};
ghost use Rattle.route.specs.Grid.{back};
ghost use Rattle.route.specs.Numbers.{number, dir_of, facing, IsDirectionOf, IsArrivalOf};
ghost use Rattle.route.specs.Check.{bends};

/// A direction in which a channel leads, in the order of the directions' numbers.
#[derive(Clone, Copy, Debug, PartialEq, Eq)]
pub enum Direction {
    West,
    East,
    South,
    North,
}

/// A number that is no direction's.
#[derive(Clone, Copy, Debug, PartialEq, Eq)]
pub struct UnknownDirection(pub u8);

/// How a packet comes to a node: it travels this way, or it starts there.
#[derive(Clone, Copy, Debug, PartialEq, Eq)]
pub enum Arrival {
    Going(Direction),
    Local,
}

/// A number that is no arrival's.
#[derive(Clone, Copy, Debug, PartialEq, Eq)]
pub struct UnknownArrival(pub u8);

impl Direction {
    /// The four of them, in the order of their numbers.
    pub const ALL: [Direction; 4] = [
        Direction::West,
        Direction::East,
        Direction::South,
        Direction::North,
    ];

    /// The number of the direction.
    pub fn number(self) -> u8
        ensures { result ≡ number (facing self) }
    {
        self as u8
    }

    /// The direction in which the channel of a number leads: each node numbers its four in order.
    pub fn of_channel(number: u16) -> Direction
        ensures { facing result ≡ dir_of (number % 4) }
    {
        match number % 4 {
            0 => Direction::West,
            1 => Direction::East,
            2 => Direction::South,
            _ => Direction::North,
        }
    }

    /// The opposite direction.
    pub fn opposite(self) -> Direction
        ensures { facing result ≡ back (facing self) }
    {
        match self {
            Direction::West => Direction::East,
            Direction::East => Direction::West,
            Direction::South => Direction::North,
            Direction::North => Direction::South,
        }
    }

    /// Is from here to another direction a turn by 90 degrees?
    pub fn bends(self, to: Direction) -> bool
        ensures { result ≡ bends (facing self) (facing to) }
    {
        matches!(self, Direction::West | Direction::East)
            != matches!(to, Direction::West | Direction::East)
    }
}

impl TryFrom<u8> for Direction {
    type Error = UnknownDirection;

    ghost try_from_gives = { IsDirectionOf };

    fn try_from(number: u8) -> Result<Self, UnknownDirection> {
        match number {
            0 => Ok(Direction::West),
            1 => Ok(Direction::East),
            2 => Ok(Direction::South),
            3 => Ok(Direction::North),
            _ => Err(UnknownDirection(number)),
        }
    }
}

impl TryFrom<u8> for Arrival {
    type Error = UnknownArrival;

    ghost try_from_gives = { IsArrivalOf };

    fn try_from(number: u8) -> Result<Self, UnknownArrival> {
        match number {
            0 => Ok(Arrival::Going(Direction::West)),
            1 => Ok(Arrival::Going(Direction::East)),
            2 => Ok(Arrival::Going(Direction::South)),
            3 => Ok(Arrival::Going(Direction::North)),
            4 => Ok(Arrival::Local),
            _ => Err(UnknownArrival(number)),
        }
    }
}
