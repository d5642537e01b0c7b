// A flit enters at the source.
ghost use Rattle.std.specs.Prelude.{◌≡◌, true};
ghost use Rattle.wormhole.specs.Steps.{stepped, may_feed, feed};
ghost use Rattle.wormhole.specs.Coded.{Memory, built, laid};

use crate::follows::has_room;
use crate::packets::Packet;
use crate::records::Record;
use crate::words::{Words, WordsMut};

impl Packet {
    /// May a flit enter the packet's rear?
    pub fn may_feed(self, words: &[u16]) -> bool
        requires { Memory self.mesh words.now }
        ensures { result ≡ may_feed (built self.mesh) (laid self.mesh words.now) self.state }
    {
        let n = self.mesh.channels();
        let words = Words { n, words };
        let r = self.state;
        if r.waiting == 0 {
            return false;
        }
        has_room(words, r.rear)
    }

    /// A flit enters the packet's rear. Returns the packet's record.
    pub fn feed(self, words: &mut [u16]) -> Record
        requires memory { Memory self.mesh words.old }
        requires may { may_feed (built self.mesh) (laid self.mesh words.old) self.state ≡ true }
        ensures { stepped (laid self.mesh words.new) result
            ≡ feed (laid self.mesh words.old) self.state }
    {
        let n = self.mesh.channels();
        let mut words = WordsMut { n, words };
        let r = self.state;
        words.fill(r.rear - 1);
        Record {
            waiting: r.waiting - 1,
            ..r
        }
    }
}
