// The calls of `traffic`, for C: each is the library's own, with its promise. A plan comes as its three
// numbers, and the answer goes in C's form. `include/mesh.h` declares them.
#![tactic(auto)]

ghost use Rattle.std.specs.Prelude.{◌≡◌};
ghost use Rattle.wormhole.specs.Calls.{left};
ghost use Rattle.traffic.specs.Calls.{read, write};

use route::Plan;
use traffic::{ListRead, Written};
use wormhole::Record;

// `traffic::mesh_read`.
#[unsafe(no_mangle)]
pub extern "C" fn mesh_read(list: &[u8], words: &mut [u16], records: &mut [Record]) -> ListRead
    ensures { left result words.new records.new
        ≡ read list.now words.old records.old }
{
    ListRead::from(traffic::mesh_read(list, words, records))
}

// `traffic::mesh_write`.
#[unsafe(no_mangle)]
pub extern "C" fn mesh_write(
    columns: u8,
    rows: u8,
    rule: u8,
    words: &[u16],
    records: &[Record],
    out: &mut [u8],
) -> Written
    ensures { record { answer = result; bytes = out.new }
        ≡ write columns rows rule words.now records.now out.old }
{
    let plan = Plan {
        columns,
        rows,
        rule,
    };
    Written::from(traffic::mesh_write(plan, words, records, out))
}
