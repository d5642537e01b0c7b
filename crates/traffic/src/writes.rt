// The call that writes a list.
ghost use Rattle.std.specs.Prelude.{◌≡◌, true, ◌*◌, ◌≤◌, ◌<◌, IfOk, length};
ghost use Rattle.route.specs.Mesh.{ruled};
ghost use Rattle.route.specs.Numbers.{rule_of};
ghost use Rattle.route.specs.Served.{refusal_of};
ghost use Rattle.route.specs.Coded.{meant};
ghost use Rattle.wormhole.specs.Range.{record_fits};
ghost use Rattle.wormhole.specs.Calls.{fits};
ghost use Rattle.traffic.specs.Lists.{node_byte, record_bytes};
ghost use Rattle.traffic.specs.Calls.{written_of, bad_write, write};
ghost use Rattle.traffic.specs.Coded.{puts};

use crate::lists::MOST_BYTES;
use crate::pages::Page;
use route::{Mesh, Plan, Refusal, place_of};
use wormhole::{Record, served, sized};

// The mesh of a plan, where the list of this memory can be written to so many bytes.
fn writable(plan: Plan, words: &[u16], records: &[Record], size: usize) -> Result<Mesh, Refusal>
    ensures refusal { refusal_of result ≡ bad_write plan.columns plan.rows plan.rule (length words.now) (length records.now) size
        (fits plan.columns plan.rows plan.rule words.now records.now) }
    ensures mesh { IfOk result (λ m. meant m ≡ ruled (rule_of plan.rule) plan.columns plan.rows 0) }
{
    sized(plan, words.len(), records.len())?;
    if size < MOST_BYTES {
        return Err(Refusal::BadSize);
    }
    Ok(served(plan, words, records)?.mesh)
}

// The byte of a node.
fn node_byte(m: Mesh, node: u16) -> u8
    requires columns_bound { m.columns ≤ 16 }
    requires rows_bound { m.rows ≤ 16 }
    requires node_bound { node < m.columns * m.rows }
    ensures { result ≡ node_byte m.columns node }
{
    let place = place_of(m.columns, node);
    place.column.0 * 16 + place.row.0
}

// Writes a record, nothing if it is empty.
fn put_record(page: &mut Page, m: Mesh, r: Record)
    requires columns_bound { m.columns ≤ 16 }
    requires rows_bound { m.rows ≤ 16 }
    requires fits { record_fits (meant m) r ≡ true }
    ensures { page.new ≡ puts page.old (record_bytes m.columns r) }
{
    if r.live == 0 {
        return;
    }
    page.put(node_byte(m, r.source));
    page.put(node_byte(m, r.destination));
    page.put(r.flits - 1);
}

/// Writes the list of the live records at the start of lent bytes, and answers its length. With a
/// refusal the bytes are as they were.
pub fn mesh_write(
    plan: Plan,
    words: &[u16],
    records: &[Record],
    out: &mut [u8],
) -> Result<u16, Refusal>
    ensures { record { answer = written_of result; bytes = out.new }
        ≡ write plan.columns plan.rows plan.rule words.now records.now out.old }
{
    let m = writable(plan, words, records, out.len())?;
    let mut page = Page::new(out);
    page.put((plan.columns - 1) * 16 + (plan.rows - 1));
    page.put(plan.rule * 32);
    for &r in records {
        put_record(&mut page, m, r);
    }
    Ok(page.len() as u16)
}
