// The header takes a further channel.
ghost use Rattle.std.specs.Prelude.{◌≡◌, true, ◌<◌, ◌≤◌};
ghost use Rattle.route.specs.Mesh.{Inside};
ghost use Rattle.route.specs.Numbers.{channels, number, facing, arriving};
ghost use Rattle.route.specs.Channels.{channel};
ghost use Rattle.route.specs.Coded.{meant};
ghost use Rattle.wormhole.specs.Memory.{holds_of};
ghost use Rattle.wormhole.specs.Steps.{stepped, head, arrival, ready, ahead, onward, may_lead, claim, start, advance, lead};
ghost use Rattle.wormhole.specs.Coded.{Memory, built, laid, seen, kept, Becomes, Leaves};

use crate::packets::Packet;
use crate::records::Record;
use crate::releases::leave;
use crate::words::{Words, WordsMut};
use route::{Arrival, Channel, Direction, Place, channel_of, outputs_at, place_of};

/// Where a packet's header is, and how it came there.
#[derive(Clone, Copy)]
pub struct Header {
    pub place: Place,
    pub arrival: Arrival,
}

// Is there a flit for the header to move?
fn is_ready(words: Words<'_>, r: Record) -> bool
    requires { r.front ≤ words.n }
    ensures { result ≡ ready (seen words.entry) r }
{
    if r.front == 0 {
        return 1 <= r.waiting;
    }
    1 <= words.holds(r.front - 1)
}

// Makes channel t packet i's, with the header's flit in it.
fn claim(words: &mut WordsMut<'_>, t: u16, i: u8)
    requires { t < words.old.n }
    ensures { Becomes words.old words.new (claim (kept words.old) t i) }
{
    words.put(t, i as u16 + 1, 1, 0);
}

// The header goes from the source to channel t, for packet i.
fn start(words: &mut WordsMut<'_>, i: u8, r: Record, t: u16) -> Record
    requires t_lt_n { t < words.old.n }
    requires t_bound { t < 65535 }
    requires le_waiting { 1 ≤ r.waiting }
    ensures { Leaves words.old words.new result (start (kept words.old) i r t) }
{
    claim(words, t, i);
    Record {
        waiting: r.waiting - 1,
        rear: t + 1,
        front: t + 1,
        ..r
    }
}

// The header goes from channel k to channel t, for packet i.
fn advance(words: &mut WordsMut<'_>, i: u8, r: Record, t: u16, k: u16) -> Record
    requires t_lt_n { t < words.old.n }
    requires t_bound { t < 65535 }
    requires k_lt_n { k < words.old.n }
    requires k_bound { k < 65535 }
    requires k_nonzero { 0 < holds_of (kept words.old) k }
    ensures { Leaves words.old words.new result (advance (kept words.old) i r t k) }
{
    words.drain(k);
    words.set_next(k, t + 1);
    claim(words, t, i);
    let s = Record { front: t + 1, ..r };
    leave(words, s, k, k + 1)
}

impl Packet {
    /// The header: at the packet's source, or at the end of its front channel.
    pub fn header(self) -> Header
        ensures place { result.place ≡ head (meant self.mesh) self.state }
        ensures arrival { arriving result.arrival ≡ arrival self.state }
        ensures inside { Inside (meant self.mesh) result.place }
    {
        let m = self.mesh;
        let r = self.state;
        if r.front == 0 {
            return Header {
                place: place_of(m.columns, r.source),
                arrival: Arrival::Local,
            };
        }
        let channel = channel_of(m.columns, r.front - 1);
        Header {
            place: m.hop(channel.start, channel.way),
            arrival: Arrival::Going(channel.way),
        }
    }

    // Does the rule let the header go on by a direction, on a shortest path?
    fn is_open(self, direction: Direction) -> bool
        ensures { result ≡ onward (meant self.mesh) self.state (number (facing direction)) }
    {
        let header = self.header();
        let outputs = outputs_at(
            self.mesh,
            header.place,
            header.arrival,
            place_of(self.mesh.columns, self.state.destination),
        );
        (outputs >> direction.number()) % 2 == 1
    }

    // The channel that the header would take.
    fn ahead(self, direction: Direction) -> u16
        ensures value { result ≡ ahead (meant self.mesh) self.state (number (facing direction)) }
        ensures bound { result < channels self.mesh.columns self.mesh.rows }
    {
        let start = self.header().place;
        let channel = Channel {
            start,
            way: direction,
        };
        channel.number(self.mesh.columns)
    }

    /// May the header take the channel in a direction?
    pub fn may_lead(self, words: &[u16], direction: Direction) -> bool
        requires { Memory self.mesh words.now }
        ensures { result ≡ may_lead (built self.mesh) (laid self.mesh words.now) self.state (number (facing direction)) }
    {
        let n = self.mesh.channels();
        let words = Words { n, words };
        if !is_ready(words, self.state) {
            return false;
        }
        if !self.is_open(direction) {
            return false;
        }
        words.owner(self.ahead(direction)) == 0
    }

    /// The header takes the channel in a direction, for packet i. Returns the packet's record.
    pub fn lead(self, words: &mut [u16], i: u8, direction: Direction) -> Record
        requires memory { Memory self.mesh words.old }
        requires may { may_lead (built self.mesh) (laid self.mesh words.old) self.state (number (facing direction)) ≡ true }
        ensures { stepped (laid self.mesh words.new) result
            ≡ lead (built self.mesh) (laid self.mesh words.old) i self.state (number (facing direction)) }
    {
        let n = self.mesh.channels();
        let mut words = WordsMut { n, words };
        let r = self.state;
        let t = self.ahead(direction);
        if r.front == 0 {
            return start(&mut words, i, r, t);
        }
        advance(&mut words, i, r, t, r.front - 1)
    }
}
