// The call that puts a packet at its source.
ghost use Rattle.std.specs.Prelude.{◌≡◌};
ghost use Rattle.route.specs.Served.{refusal_of};
ghost use Rattle.wormhole.specs.Calls.{left, bad_packet, offered_of, offer};

use crate::ranges::flits_served;
use crate::records::{Record, fresh};
use crate::sizes::served;
use route::{Mesh, Plan, Refusal};

// The record that a refusal names in C.
const NO_RECORD: u8 = 255;

/// The answer of `mesh_offer` as C has it: the refusal, and the record, 255 with a refusal.
#[repr(C)]
#[derive(Clone, Copy, Debug, PartialEq, Eq)]
pub struct Offered {
    pub refusal: u8,
    pub record: u8,
}

impl From<Result<u8, Refusal>> for Offered {
    ghost from_gives = { λ answer o. o ≡ offered_of answer };

    fn from(answer: Result<u8, Refusal>) -> Offered {
        match answer {
            Ok(record) => Offered { refusal: 0, record },
            Err(refusal) => Offered {
                refusal: u8::from(refusal),
                record: NO_RECORD,
            },
        }
    }
}

// Can a packet be served?
fn check_packet(m: Mesh, source: u16, destination: u16, flits: u8) -> Result<(), Refusal>
    ensures { refusal_of result ≡ bad_packet m.columns m.rows source destination flits }
{
    let nodes = m.nodes();
    let served = flits_served(flits);
    let still = source == destination;
    if (nodes <= source) | (nodes <= destination) {
        return Err(Refusal::BadNode);
    }
    if !served {
        return Err(Refusal::BadFlits);
    }
    if still {
        return Err(Refusal::SameNode);
    }
    Ok(())
}

/// Puts a packet at its source, in the lowest empty record, and answers that record's number. With a
/// refusal memory is as it was.
pub fn mesh_offer(
    plan: Plan,
    words: &[u16],
    records: &mut [Record],
    source: u16,
    destination: u16,
    flits: u8,
) -> Result<u8, Refusal>
    ensures { left (offered_of result) words.now records.new
        ≡ offer plan.columns plan.rows plan.rule words.now records.old source destination flits }
{
    let memory = served(plan, words, records)?;
    check_packet(memory.mesh, source, destination, flits)?;
    let Some(empty) = memory.empty else {
        return Err(Refusal::Full);
    };
    records[empty] = fresh(source, destination, flits);
    Ok(empty as u8)
}
