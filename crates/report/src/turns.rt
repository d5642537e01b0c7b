// One turn of a sweep: which move it tries, and what becomes of the packet that tries it.
ghost use Rattle.std.specs.Prelude.{◌≡◌, true, ◌+◌, ◌-◌, ◌<◌, ◌≤◌, ◌^◌, IfSome, IfNone};
ghost use Rattle.wormhole.specs.Memory.{owner_of};
ghost use Rattle.wormhole.specs.Coded.{Fitting, Memory, built, laid, seen};
ghost use Rattle.report.specs.Sweeps.{own_turn, turn};
ghost use Rattle.report.specs.Coded.{accepted, done, Makes};

use route::{Direction, Mesh};
use wormhole::{Packet, Record, Step, Words, may_move};

// The records of a report.
pub const RECORDS: usize = 64;

// The turns that a record has in a sweep: leads in the four directions, a feed, an eat.
const OWN: [Step; OWN_TURNS] = [
    Step::Lead(Direction::West),
    Step::Lead(Direction::East),
    Step::Lead(Direction::South),
    Step::Lead(Direction::North),
    Step::Feed,
    Step::Eat,
];

// How many they are.
pub const OWN_TURNS: usize = 6;

// A packet's record, and how many moves of it were accepted.
#[derive(Clone, Copy, Debug, Default, PartialEq, Eq)]
pub struct Counted {
    pub packet: Record,
    pub moves: u32,
}

// A move of a packet.
#[derive(Clone, Copy, Debug, PartialEq, Eq)]
pub struct Turn {
    pub packet: u8,
    pub step: Step,
}

// A turn of a record.
fn own_turn(t: usize) -> Turn
    requires { t < 384 }
    ensures { Makes result (own_turn t) }
{
    Turn {
        packet: (t / OWN_TURNS) as u8,
        step: OWN[t % OWN_TURNS],
    }
}

// The move that a sweep tries at turn t: none where nobody could follow, since the turn's channel is
// free.
pub fn turn_at(words: Words<'_>, t: usize) -> Option<Turn>
    requires t_bound { t < 384 + words.n }
    requires n_bound { words.n < 65536 }
    requires owner_bound { owner_of (seen words) (t - 384) < 257 }
    ensures made { IfSome result (λ v. Makes v (turn 64 words.entry.n words.entry.words.now t)) }
    ensures free { IfNone result ((384 ≤ t) × (owner_of (seen words.entry) (t - 384) ≡ 0)) }
    ensures held { IfSome result (λ v. 384 ≤ t → 0 < owner_of (seen words.entry) (t - 384)) }
{
    if t < OWN_TURNS * RECORDS {
        return Some(own_turn(t));
    }
    let channel = (t - OWN_TURNS * RECORDS) as u16;
    let holder = words.owner(channel).checked_sub(1)?;
    Some(Turn {
        packet: holder as u8,
        step: Step::Follow(channel),
    })
}

// Does the machine accept a turn of a packet with this record?
pub fn is_accepted(words: &[u16], m: Mesh, v: Turn, r: Record) -> bool
    requires fitting { Fitting m r }
    requires memory { Memory m words.now }
    ensures { result ≡ accepted (built m) (laid m words.now) v.packet r v.step }
{
    v.step.is_there(m) && may_move(words, m, v.packet, r, v.step)
}

// Makes a turn of a packet that the machine accepts, and counts it.
pub fn make(words: &mut [u16], m: Mesh, v: Turn, c: Counted) -> Counted
    requires fitting { Fitting m c.packet }
    requires memory { Memory m words.old }
    requires accepted { accepted (built m) (laid m words.old) v.packet c.packet v.step ≡ true }
    requires moves_bound { c.moves + 1 < 2 ^ 32 }
    ensures { record { words = laid m words.new; counted = result }
        ≡ done (built m) (laid m words.old) v c }
{
    let packet = Packet {
        mesh: m,
        state: c.packet,
    };
    Counted {
        packet: packet.act(words, v.packet, v.step),
        moves: c.moves + 1,
    }
}
