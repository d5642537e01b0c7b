// Why a call is not served.
ghost use Rattle.std.specs.Prelude.{◌≡◌};
ghost use Rattle.route.specs.Served.{code, refusal_of};

use std::error::Error;
use std::fmt;

/// Why a call is not served, each by the number that C knows it by. 0 is acceptance there, and 14 a
/// numbering that does not rise.
#[derive(Clone, Copy, Debug, PartialEq, Eq)]
pub enum Refusal {
    /// A side is outside 2 to 16.
    BadSide = 1,
    /// The rule is above 4.
    BadRule = 2,
    /// A node is outside the mesh.
    BadNode = 3,
    /// The arrival is above 4, or from off the mesh.
    BadArrival = 4,
    /// A packet's source is its destination.
    SameNode = 5,
    /// A packet's flits are not 1 to 200.
    BadFlits = 6,
    /// Lent memory has a wrong size.
    BadSize = 7,
    /// The step rules do not allow the move now.
    NotNow = 8,
    /// Memory is out of range.
    BadMemory = 9,
    /// No record is empty.
    Full = 10,
    /// No shortest path is legal.
    NoPath = 11,
    /// A traffic list has a length that none has, or a spare bit set.
    BadList = 12,
    /// A move names no record, kind, direction or channel.
    BadMove = 13,
}

impl From<Refusal> for u8 {
    ghost from_gives = { λ r n. n ≡ code r };

    fn from(refusal: Refusal) -> u8 {
        refusal as u8
    }
}

/// The number that C has for an answer of no more than a refusal: that refusal's, or 0 where the call is
/// served.
pub fn code_of(answer: Result<(), Refusal>) -> u8
    ensures { result ≡ refusal_of answer }
{
    match answer {
        Ok(()) => 0,
        Err(refusal) => u8::from(refusal),
    }
}

impl fmt::Display for Refusal {
    fn fmt<W: fmt::Write>(&self, f: &mut fmt::Formatter<W>) -> fmt::Result {
        f.write_str(match self {
            Refusal::BadSide => "a side is not 2 to 16",
            Refusal::BadRule => "the rule is above 4",
            Refusal::BadNode => "a node is outside the mesh",
            Refusal::BadArrival => "the arrival is above 4, or from off the mesh",
            Refusal::SameNode => "the source is the destination",
            Refusal::BadFlits => "flits are not 1 to 200",
            Refusal::BadSize => "lent memory has a wrong size",
            Refusal::NotNow => "the rules do not allow the move now",
            Refusal::BadMemory => "memory is out of range",
            Refusal::Full => "no record is empty",
            Refusal::NoPath => "no shortest path is legal",
            Refusal::BadList => "the list's length or a spare bit is wrong",
            Refusal::BadMove => "no such record, kind, direction or channel",
        })
    }
}

impl Error for Refusal {}
