// The house numbers of the channels, rule by rule. Under its rule each numbering rises from a channel
// to every other that a packet may use next.
ghost use Rattle.std.specs.Prelude.{◌≡◌, ◌+◌, ◌*◌, ◌≤◌, ◌<◌};
ghost use Rattle.route.specs.Turns.{parity, xy, west_first, north_last, negative_first, odd_even};
ghost use Rattle.route.specs.Numbers.{facing, published};
ghost use Rattle.route.specs.House.{by_parity};
ghost use Rattle.route.specs.Coded.{in_frame};

use crate::directions::Direction;
use crate::frames::Frame;
use crate::rules::Rule;

// The first number of a lane: each lane has one number more than the side that it runs along is long.
fn lane(place: u16, side: u16) -> u16
    requires place_bound { place < 128 }
    requires side_bound { side ≤ 64 }
    ensures { (result < 8320) × (result ≡ place * (side + 1)) }
{
    place * (side + 1)
}

impl Frame {
    /// The house number of the channel that leaves the place in a direction, under a published rule.
    pub fn number(self, rule: Rule, direction: Direction) -> u16
        ensures { result ≡ in_frame (published rule) self (facing direction) }
    {
        match rule {
            Rule::Xy => self.xy(direction),
            Rule::WestFirst => self.west_first(direction),
            Rule::NorthLast => self.north_last(direction),
            Rule::NegativeFirst => self.negative_first(direction),
            Rule::OddEven => self.odd_even(direction),
        }
    }

    // xy: the rows' channels first, then the columns'.
    fn xy(self, direction: Direction) -> u16
        ensures { result ≡ in_frame xy self (facing direction) }
    {
        match direction {
            Direction::West => self.u,
            Direction::East => self.c,
            Direction::South => self.columns + self.d,
            Direction::North => self.columns + self.r,
        }
    }

    // West-first: the west channels, then column by column from the west.
    fn west_first(self, direction: Direction) -> u16
        ensures { result ≡ in_frame west_first self (facing direction) }
    {
        let base = self.columns + lane(self.c, self.rows);
        match direction {
            Direction::West => self.u,
            Direction::East => base + self.rows,
            Direction::South => base + self.d,
            Direction::North => base + self.r,
        }
    }

    // North-last: row by row from the north, then the north channels.
    fn north_last(self, direction: Direction) -> u16
        ensures { result ≡ in_frame north_last self (facing direction) }
    {
        let base = lane(self.d, self.columns);
        let last = lane(self.rows, self.columns);
        match direction {
            Direction::West => base + self.u,
            Direction::East => base + self.c,
            Direction::South => base + self.columns,
            Direction::North => last + self.r,
        }
    }

    // Negative-first: down to the corner of west and south, then up from it.
    fn negative_first(self, direction: Direction) -> u16
        ensures { result ≡ in_frame negative_first self (facing direction) }
    {
        let corner = self.columns + self.rows - 2;
        match direction {
            Direction::West | Direction::South => corner - self.c - self.r,
            Direction::East | Direction::North => corner + self.c + self.r,
        }
    }

    // Odd-even: the place of the lane of a column's own channels, which comes before the west hops out
    // of the column if its number is even, and before the east hops if it is odd.
    fn own_lane(self) -> u16
        ensures { (result < 128) × (result ≡ by_parity (parity self.c) self.u (self.columns + self.c)) }
    {
        if self.c % 2 == 0 {
            return self.u;
        }
        self.columns + self.c
    }

    // Odd-even: lanes for going west, from the east, then lanes for going east, from the west.
    fn odd_even(self, direction: Direction) -> u16
        ensures { result ≡ in_frame odd_even self (facing direction) }
    {
        let own = lane(self.own_lane(), self.rows);
        match direction {
            Direction::West => lane(self.u, self.rows) + self.rows,
            Direction::East => lane(self.columns + self.c, self.rows) + self.rows,
            Direction::South => own + self.d,
            Direction::North => own + self.r,
        }
    }
}
