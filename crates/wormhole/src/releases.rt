// What happens after a flit has left a channel.
ghost use Rattle.std.specs.Prelude.{◌≡◌, ◌<◌};
ghost use Rattle.wormhole.specs.Steps.{shortened, release, leave};
ghost use Rattle.wormhole.specs.Coded.{kept, Leaves};

use crate::records::Record;
use crate::words::WordsMut;

// The record of a packet that gives up channel k, which had this next; `front` is the packet's front
// before the move.
fn shorten(r: Record, k: u16, front: u16, next: u16) -> Record
    requires { k < 65535 }
    ensures { result ≡ shortened r k front next }
{
    let is_last = (front == k + 1) & (next == 0);
    Record {
        rear: next,
        front: if is_last { 0 } else { r.front },
        ..r
    }
}

// Gives up channel k of a packet.
fn release(words: &mut WordsMut<'_>, r: Record, k: u16, front: u16) -> Record
    requires k_lt_n { k < words.old.n }
    requires k_bound { k < 65535 }
    ensures { Leaves words.old words.new result (release (kept words.old) r k front) }
{
    let next = words.next(k);
    words.put(k, 0, 0, 0);
    shorten(r, k, front, next)
}

// Channel k of a packet, which a flit has left, is given up if it is the rear, is empty, and nothing
// is to come from the source. Returns the packet's record.
pub fn leave(words: &mut WordsMut<'_>, r: Record, k: u16, front: u16) -> Record
    requires k_lt_n { k < words.old.n }
    requires k_bound { k < 65535 }
    ensures { Leaves words.old words.new result (leave (kept words.old) r k front) }
{
    if r.rear != k + 1 {
        return r;
    }
    if r.waiting != 0 {
        return r;
    }
    if words.holds(k) != 0 {
        return r;
    }
    release(words, r, k, front)
}
