// The call that empties the memory.
ghost use Rattle.std.specs.Prelude.{◌≡◌};
ghost use Rattle.route.specs.Served.{refusal_of};
ghost use Rattle.wormhole.specs.Calls.{left, reset};

use crate::records::Record;
use crate::sizes::sized;
use route::{Plan, Refusal};

/// Makes the mesh empty, whatever the memory has. The rule does not matter. With a refusal memory is
/// as it was.
pub fn mesh_reset(
    columns: u8,
    rows: u8,
    words: &mut [u16],
    records: &mut [Record],
) -> Result<(), Refusal>
    ensures { left (refusal_of result) words.new records.new
        ≡ reset columns rows words.old records.old }
{
    let plan = Plan {
        columns,
        rows,
        rule: 0,
    };
    sized(plan, words.len(), records.len())?;
    words.fill(0);
    records.fill(Record::default());
    Ok(())
}
