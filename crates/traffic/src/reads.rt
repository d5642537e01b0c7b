// The call that reads a list.
ghost use Rattle.std.specs.Prelude.{◌≡◌};
ghost use Rattle.wormhole.specs.Calls.{left};
ghost use Rattle.traffic.specs.Calls.{read_of, read};

use crate::headers::packet_at;
use crate::lists::{lead_of, packets_of, readable};
use route::{Plan, Refusal};
use wormhole::Record;

/// What a list has that was read: the plan of its mesh, and how many packets.
#[derive(Clone, Copy, Debug, PartialEq, Eq)]
pub struct Contents {
    pub plan: Plan,
    pub packets: u8,
}

/// The answer of `mesh_read` as C has it: the refusal, and the mesh and how many packets the list has,
/// all 0 with a refusal.
#[repr(C)]
#[derive(Clone, Copy, Debug, PartialEq, Eq)]
pub struct ListRead {
    pub refusal: u8,
    pub columns: u8,
    pub rows: u8,
    pub rule: u8,
    pub packets: u8,
}

impl From<Result<Contents, Refusal>> for ListRead {
    ghost from_gives = { λ answer r. r ≡ read_of answer };

    fn from(answer: Result<Contents, Refusal>) -> ListRead {
        match answer {
            Ok(contents) => ListRead {
                refusal: 0,
                columns: contents.plan.columns,
                rows: contents.plan.rows,
                rule: contents.plan.rule,
                packets: contents.packets,
            },
            Err(refusal) => ListRead {
                refusal: u8::from(refusal),
                columns: 0,
                rows: 0,
                rule: 0,
                packets: 0,
            },
        }
    }
}

/// Makes the mesh of a list empty but for the list's packets, each at its source. With a refusal memory
/// is as it was.
pub fn mesh_read(
    list: &[u8],
    words: &mut [u16],
    records: &mut [Record],
) -> Result<Contents, Refusal>
    ensures { left (read_of result) words.new records.new
        ≡ read list.now words.old records.old }
{
    let m = readable(list, words.len(), records.len())?;
    words.fill(0);
    for (i, record) in records.iter_mut().enumerate() {
        *record = packet_at(list, m, i);
    }
    Ok(Contents {
        plan: lead_of(list).plan(),
        packets: packets_of(list) as u8,
    })
}
