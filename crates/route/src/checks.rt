// The check of a numbering, whoever made it: do the numbers rise at every turn by 90 degrees that the
// rule allows? It looks at each turn once.
ghost use Rattle.std.specs.Prelude.{◌≡◌, ◌<◌, length, unwrap_or, IfSome};
ghost use Rattle.route.specs.Channels.{channel};
ghost use Rattle.route.specs.Numbers.{channels, facing};
ghost use Rattle.route.specs.Check.{falls, first_after, first_pair, checked, pair_of, checked_of};
ghost use Rattle.route.specs.Coded.{meant, Ends};

use crate::channels::{Channel, channel_of};
use crate::directions::{Arrival, Direction};
use crate::numberings::Numbering;
use crate::plans::Plan;
use crate::refusals::Refusal;

/// Two channels between which a turn by 90 degrees is allowed, though the second's number is not the
/// greater.
#[derive(Clone, Copy, Debug, PartialEq, Eq)]
pub struct Fall {
    pub incoming: u16,
    pub outgoing: u16,
}

/// The answer of `mesh_check` as C has it: the refusal, 14 with the first pair that falls, and both
/// channels 0 with every other answer.
#[repr(C)]
#[derive(Clone, Copy, Debug, PartialEq, Eq)]
pub struct Checked {
    pub refusal: u8,
    pub incoming: u16,
    pub outgoing: u16,
}

// C's number for a numbering that does not rise.
const NOT_RISING: u8 = 14;

impl From<Result<Option<Fall>, Refusal>> for Checked {
    ghost from_gives = { λ answer c. c ≡ checked_of answer };

    fn from(answer: Result<Option<Fall>, Refusal>) -> Checked {
        match answer {
            Ok(Some(fall)) => Checked {
                refusal: NOT_RISING,
                incoming: fall.incoming,
                outgoing: fall.outgoing,
            },
            Ok(None) => Checked {
                refusal: 0,
                incoming: 0,
                outgoing: 0,
            },
            Err(refusal) => Checked {
                refusal: u8::from(refusal),
                incoming: 0,
                outgoing: 0,
            },
        }
    }
}

impl Numbering {
    // From a channel to one that leaves its end: is that an allowed turn by 90 degrees at which the
    // numbers do not rise?
    fn falls(self, list: &[u16], incoming: u16, out: Channel) -> bool
        requires list_len { length list.now ≡ channels self.mesh.columns self.mesh.rows }
        requires ends { Ends (meant self.mesh) incoming out.start }
        ensures { result ≡ falls (meant self.mesh) list.now incoming (channel self.mesh.columns out.start (facing out.way)) }
    {
        let m = self.mesh;
        let way = Direction::of_channel(incoming);
        if !way.bends(out.way) {
            return false;
        }
        if !m.exists(out.start, out.way) {
            return false;
        }
        if !m.turn_ok(out.start.column, Arrival::Going(way), out.way) {
            return false;
        }
        let before = list[incoming as usize];
        let after = list[out.number(m.columns) as usize];
        after <= before
    }

    // The first channel to which the numbers do not rise from this one.
    fn first_after(self, list: &[u16], incoming: u16) -> Option<u16>
        requires list_len { length list.now ≡ channels self.mesh.columns self.mesh.rows }
        requires incoming_bound { incoming < channels self.mesh.columns self.mesh.rows }
        ensures bound { IfSome result (λ o. o < channels self.mesh.columns self.mesh.rows) }
        ensures first { unwrap_or result (channels self.mesh.columns self.mesh.rows) ≡ first_after (meant self.mesh) list.now incoming }
    {
        let m = self.mesh;
        let from = channel_of(m.columns, incoming);
        if !m.exists(from.start, from.way) {
            return None;
        }
        let start = m.hop(from.start, from.way);
        for way in Direction::ALL {
            let out = Channel { start, way };
            if self.falls(list, incoming, out) {
                return Some(out.number(m.columns));
            }
        }
        None
    }

    // The first pair of channels at which the numbers do not rise.
    fn first_pair(self, list: &[u16]) -> Option<Fall>
        requires { length list.now ≡ channels self.mesh.columns self.mesh.rows }
        ensures { pair_of result ≡ first_pair (meant self.mesh) list.now }
    {
        for incoming in 0..list.len() as u16 {
            if let Some(outgoing) = self.first_after(list, incoming) {
                return Some(Fall { incoming, outgoing });
            }
        }
        None
    }
}

/// Looks whether a list, whoever made it, rises at every turn by 90 degrees that the rule allows, and
/// names the first pair of channels at which it does not.
pub fn mesh_check(plan: Plan, list: &[u16]) -> Result<Option<Fall>, Refusal>
    ensures { checked_of result ≡ checked plan.columns plan.rows plan.rule list.now }
{
    let numbering = plan.numbering(list.len())?;
    Ok(numbering.first_pair(list))
}
