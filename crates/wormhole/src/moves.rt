// The call that moves one flit.
ghost use Rattle.std.specs.Prelude.{◌≡◌};
ghost use Rattle.route.specs.Served.{refusal_of};
ghost use Rattle.wormhole.specs.Calls.{left, move};

use crate::packets::Packet;
use crate::records::Record;
use crate::sizes::served;
use crate::steps::{Step, may_move};
use route::{Plan, Refusal};

/// Moves one flit of a record's packet by one channel. `kind` is 0 lead, 1 follow, 2 feed, 3 eat; a
/// lead names the direction, a follow the channel that the flit leaves. With a refusal memory is as
/// it was.
pub fn mesh_move(
    plan: Plan,
    words: &mut [u16],
    records: &mut [Record],
    record: u8,
    kind: u8,
    channel: u16,
    direction: u8,
) -> Result<(), Refusal>
    ensures { left (refusal_of result) words.new records.new
        ≡ move plan.columns plan.rows plan.rule words.old records.old «record» kind channel direction }
{
    let m = served(plan, words, records)?.mesh;
    let i = record as usize;
    if records.len() <= i {
        return Err(Refusal::BadMove);
    }
    let Some(step) = Step::of(m, kind, channel, direction) else {
        return Err(Refusal::BadMove);
    };
    let r = records[i];
    if !may_move(words, m, record, r, step) {
        return Err(Refusal::NotNow);
    }
    let packet = Packet { mesh: m, state: r };
    records[i] = packet.act(words, record, step);
    Ok(())
}
