// A move by its kind: may it be made, and what it does.
ghost use Rattle.std.specs.Prelude.{◌≡◌, true, IfSome, is_some};
ghost use Rattle.route.specs.Coded.{meant};
ghost use Rattle.wormhole.specs.Steps.{stepped, known};
ghost use Rattle.wormhole.specs.Coded.{Fitting, Memory, built, laid, Means, takes, step_allowed, step_may, step_act};

use crate::follows::{follow, may_follow};
use crate::packets::Packet;
use crate::records::Record;
use route::{Direction, Mesh, is_channel};

/// A move of one flit, with what its kind names: a direction for a lead, a channel for a follow.
#[derive(Clone, Copy, Debug, PartialEq, Eq)]
pub enum Step {
    Lead(Direction),
    Follow(u16),
    Feed,
    Eat,
}

impl Step {
    /// The move of these numbers, as C gives them, if there is such a kind and what it names exists. What
    /// a kind does not name may be anything.
    pub fn of(m: Mesh, kind: u8, channel: u16, direction: u8) -> Option<Step>
        ensures known { is_some result ≡ known (meant m) kind channel direction }
        ensures step { IfSome result (λ s. Means s kind channel direction) }
    {
        match kind {
            0 => Direction::try_from(direction).ok().map(Step::Lead),
            1 => is_channel(m, channel).then_some(Step::Follow(channel)),
            2 => Some(Step::Feed),
            3 => Some(Step::Eat),
            _ => None,
        }
    }

    /// Is what it names there? A number of a channel may be none's.
    pub fn is_there(self, m: Mesh) -> bool
        ensures { result ≡ takes (meant m) self }
    {
        match self {
            Step::Follow(channel) => is_channel(m, channel),
            Step::Lead(_) | Step::Feed | Step::Eat => true,
        }
    }
}

/// May packet i, whose record is r, make a move? Not if the record is empty.
pub fn may_move(words: &[u16], m: Mesh, i: u8, r: Record, step: Step) -> bool
    requires fitting { Fitting m r }
    requires memory { Memory m words.now }
    requires takes { takes (meant m) step ≡ true }
    ensures { result ≡ step_allowed (built m) (laid m words.now) i r step }
{
    if r.live != 1 {
        return false;
    }
    let packet = Packet { mesh: m, state: r };
    match step {
        Step::Lead(direction) => packet.may_lead(words, direction),
        Step::Follow(channel) => may_follow(words, m, i, channel),
        Step::Feed => packet.may_feed(words),
        Step::Eat => packet.may_eat(words),
    }
}

impl Packet {
    /// Packet i makes a move that it may make. Returns the packet's record.
    pub fn act(self, words: &mut [u16], i: u8, step: Step) -> Record
        requires memory { Memory self.mesh words.old }
        requires takes { takes (meant self.mesh) step ≡ true }
        requires allowed { step_may (built self.mesh) (laid self.mesh words.old) i self.state step ≡ true }
        ensures { stepped (laid self.mesh words.new) result
            ≡ step_act (built self.mesh) (laid self.mesh words.old) i self.state step }
    {
        match step {
            Step::Lead(direction) => self.lead(words, i, direction),
            Step::Follow(channel) => follow(words, self.mesh, self.state, channel),
            Step::Feed => self.feed(words),
            Step::Eat => self.eat(words),
        }
    }
}
