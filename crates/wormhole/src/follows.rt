// A flit follows within its packet.
ghost use Rattle.std.specs.Prelude.{◌≡◌, true, ◌<◌, ◌≤◌};
ghost use Rattle.route.specs.Numbers.{channels};
ghost use Rattle.route.specs.Coded.{Roomy};
ghost use Rattle.wormhole.specs.Memory.{depth};
ghost use Rattle.wormhole.specs.Steps.{stepped, room, can_follow, may_follow, follow};
ghost use Rattle.wormhole.specs.Coded.{Memory, built, laid, seen};

use crate::ranges::DEPTH;
use crate::records::Record;
use crate::releases::leave;
use crate::words::{Words, WordsMut};
use route::Mesh;

/// Does a word name a channel that has room for a flit?
pub fn has_room(words: Words<'_>, word: u16) -> bool
    requires { word ≤ words.n }
    ensures { result ≡ room depth (seen words.entry) word }
{
    if word == 0 {
        return false;
    }
    words.holds(word - 1) < DEPTH
}

/// May a flit of packet i go from channel k to the packet's next?
pub fn may_follow(words: &[u16], m: Mesh, i: u8, k: u16) -> bool
    requires memory { Memory m words.now }
    requires k_bound { k < channels m.columns m.rows }
    ensures { result ≡ may_follow (built m) (laid m words.now) i k }
{
    let n = m.channels();
    let words = Words { n, words };
    if words.owner(k) != i as u16 + 1 {
        return false;
    }
    if words.holds(k) == 0 {
        return false;
    }
    has_room(words, words.next(k))
}

/// A flit goes from channel k to the packet's next. Returns the packet's record.
pub fn follow(words: &mut [u16], m: Mesh, r: Record, k: u16) -> Record
    requires roomy { Roomy m }
    requires memory { Memory m words.old }
    requires k_bound { k < channels m.columns m.rows }
    requires may { can_follow (built m) (laid m words.old) k ≡ true }
    ensures { stepped (laid m words.new) result
        ≡ follow (laid m words.old) r k }
{
    let n = m.channels();
    let mut words = WordsMut { n, words };
    let next = words.next(k);
    words.drain(k);
    words.fill(next - 1);
    leave(&mut words, r, k, r.front)
}
