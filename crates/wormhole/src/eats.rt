// The destination takes a flit.
ghost use Rattle.std.specs.Prelude.{◌≡◌, true};
ghost use Rattle.wormhole.specs.Steps.{stepped, may_eat, finished, eat};
ghost use Rattle.wormhole.specs.Coded.{Memory, built, laid};

use crate::packets::Packet;
use crate::records::Record;
use crate::releases::leave;
use crate::words::{Words, WordsMut};
use route::place_of;

// The record of a packet after its release, empty if the packet is eaten whole; `r` is the record
// before it.
fn finish(r: Record, released: Record) -> Record
    ensures { result ≡ finished r released }
{
    if r.eaten == r.flits {
        return Record::default();
    }
    released
}

impl Packet {
    /// May the destination take a flit from the packet's front?
    pub fn may_eat(self, words: &[u16]) -> bool
        requires { Memory self.mesh words.now }
        ensures { result ≡ may_eat (built self.mesh) (laid self.mesh words.now) self.state }
    {
        let n = self.mesh.channels();
        let words = Words { n, words };
        let r = self.state;
        if r.front == 0 {
            return false;
        }
        if self.header().place != place_of(self.mesh.columns, r.destination) {
            return false;
        }
        if words.holds(r.front - 1) == 0 {
            return false;
        }
        r.eaten < r.flits
    }

    /// The destination takes a flit from the packet's front. Returns the packet's record.
    pub fn eat(self, words: &mut [u16]) -> Record
        requires memory { Memory self.mesh words.old }
        requires may { may_eat (built self.mesh) (laid self.mesh words.old) self.state ≡ true }
        ensures { stepped (laid self.mesh words.new) result
            ≡ eat (laid self.mesh words.old) self.state }
    {
        let n = self.mesh.channels();
        let mut words = WordsMut { n, words };
        let r = self.state;
        let k = r.front - 1;
        words.drain(k);
        let bitten = Record {
            eaten: r.eaten + 1,
            ..r
        };
        let released = leave(&mut words, bitten, k, r.front);
        finish(bitten, released)
    }
}
