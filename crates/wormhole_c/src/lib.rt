// The calls of `wormhole`, for C: each is the library's own, with its promise. A plan comes as its three
// numbers, and the answer goes in C's form. `include/mesh.h` declares them.
#![tactic(auto)]

ghost use Rattle.std.specs.Prelude.{◌≡◌};
ghost use Rattle.wormhole.specs.Calls.{left, reset, offer, move};

use route::{Plan, code_of};
use wormhole::{Offered, Record};

// `wormhole::mesh_reset`.
#[unsafe(no_mangle)]
pub extern "C" fn mesh_reset(columns: u8, rows: u8, words: &mut [u16], records: &mut [Record]) -> u8
    ensures { left result words.new records.new
        ≡ reset columns rows words.old records.old }
{
    code_of(wormhole::mesh_reset(columns, rows, words, records))
}

// `wormhole::mesh_offer`.
#[unsafe(no_mangle)]
pub extern "C" fn mesh_offer(
    columns: u8,
    rows: u8,
    rule: u8,
    words: &mut [u16],
    records: &mut [Record],
    source: u16,
    destination: u16,
    flits: u8,
) -> Offered
    ensures { left result words.new records.new
        ≡ offer columns rows rule words.old records.old source destination flits }
{
    let plan = Plan {
        columns,
        rows,
        rule,
    };
    Offered::from(wormhole::mesh_offer(plan, words, records, source, destination, flits))
}

// `wormhole::mesh_move`.
#[unsafe(no_mangle)]
pub extern "C" fn mesh_move(
    columns: u8,
    rows: u8,
    rule: u8,
    words: &mut [u16],
    records: &mut [Record],
    record: u8,
    kind: u8,
    channel: u16,
    direction: u8,
) -> u8
    ensures { left result words.new records.new
        ≡ move columns rows rule words.old records.old «record» kind channel direction }
{
    let plan = Plan {
        columns,
        rows,
        rule,
    };
    code_of(wormhole::mesh_move(plan, words, records, record, kind, channel, direction))
}
