// A list drains: sweeps over all its moves, until one accepts none.
ghost use Rattle.std.specs.Prelude.{◌≡◌, ◌≤◌, length, replicate};
ghost use Rattle.route.specs.Mesh.{ruled};
ghost use Rattle.route.specs.Numbers.{rule_of};
ghost use Rattle.route.specs.Coded.{meant};
ghost use Rattle.traffic.specs.Lists.{lead, after_lead, bad_headers, packets};
ghost use Rattle.traffic.specs.Calls.{bad_read, filled};
ghost use Rattle.report.specs.Sweeps.{sum, idle, sweep};
ghost use Rattle.report.specs.Calls.{drain};
ghost use Rattle.report.specs.Coded.{recs, counts, tally, Reached};

use crate::turns::{Counted, OWN_TURNS, RECORDS, is_accepted, make, turn_at};
use route::{Mesh, Plan};
use traffic::{lead_of, packet_at};
use wormhole::Words;

// More sweeps than a list can keep busy.
const MOST_SWEEPS: u32 = 396801;

// Makes the records those of a list's packets, each at its source, with no move counted.
fn load(list: &[u8], m: Mesh, all: &mut [Counted; RECORDS])
    requires in_bounds { 2 ≤ length list.now }
    requires headers_served { bad_headers m.columns m.rows (after_lead list.now) ≡ 0 }
    requires few { length (after_lead list.now) ≤ 64 }
    ensures packets { recs all.new ≡ filled (packets m.columns (after_lead list.now)) 64 }
    ensures none_counted { counts all.new ≡ replicate 64 0 }
{
    all.fill(Counted::default());
    for (i, counted) in all.iter_mut().enumerate() {
        counted.packet = packet_at(list, m, i);
    }
}

// All moves that were counted.
pub fn total_of(all: &[Counted; RECORDS]) -> u32
    requires { sum (counts all.now) ≤ 396800 }
    ensures { result ≡ sum (counts all.now) }
{
    all.iter().map(|counted| counted.moves).sum()
}

// Has every packet arrived?
pub fn is_idle(all: &[Counted; RECORDS]) -> bool
    ensures { result ≡ idle (recs all.now) }
{
    all.iter().all(|counted| counted.packet.live == 0)
}

// Tries every move once, one turn after another, in the mesh of a plan.
fn sweep(words: &mut [u16], plan: Plan, m: Mesh, all: &mut [Counted; RECORDS])
    requires mesh { meant m ≡ ruled (rule_of plan.rule) plan.columns plan.rows 0 }
    requires reached { Reached plan.columns plan.rows plan.rule (tally words.old all.old) }
    ensures { tally words.new all.new ≡ sweep plan.columns plan.rows plan.rule (tally words.old all.old) }
{
    let n = m.channels();
    for t in 0..OWN_TURNS * RECORDS + n {
        let Some(v) = turn_at(Words { n, words }, t) else {
            continue;
        };
        let counted = &mut all[v.packet as usize];
        if is_accepted(words, m, v, counted.packet) {
            *counted = make(words, m, v, *counted);
        }
    }
}

// Reads a list into words and records and drains it, in the list's mesh. The records are lent and not handed
// out: a copy of the array would be a call of `memcpy`, which the archive for C is not to need.
pub fn drain(list: &[u8], m: Mesh, words: &mut [u16], all: &mut [Counted; RECORDS])
    requires mesh { meant m ≡ ruled (rule_of (lead list.now).rule) (lead list.now).columns (lead list.now).rows 0 }
    requires readable { bad_read list.now (length words.old) 64 ≡ 0 }
    ensures { tally words.new all.new ≡ drain list.now words.old }
{
    let plan = lead_of(list).plan();
    words.fill(0);
    load(list, m, all);
    for _ in 0..MOST_SWEEPS {
        let before = total_of(all);
        sweep(words, plan, m, all);
        if total_of(all) == before {
            return;
        }
    }
}
