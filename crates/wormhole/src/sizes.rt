// What every call looks at first: the plan, the sizes of the memory, and whether it is in range.
ghost use Rattle.std.specs.Prelude.{◌≡◌, ◌≤◌, ◌<◌, IfOk, IfSome, unwrap_or, length};
ghost use Rattle.route.specs.Mesh.{ruled};
ghost use Rattle.route.specs.Numbers.{rule_of};
ghost use Rattle.route.specs.Served.{refusal_of};
ghost use Rattle.route.specs.Coded.{meant};
ghost use Rattle.wormhole.specs.Calls.{needed, bad_size, bad_memory, fits, lowest};

use crate::ranges::{survey, words_fit};
use crate::records::Record;
use route::{Mesh, Plan, Refusal};

// The greatest number of records.
const MOST_RECORDS: usize = 64;

/// How many words a mesh of these sides needs: three for each number of a channel.
pub fn words_needed(columns: u8, rows: u8) -> usize
    ensures value { result ≡ needed columns rows }
    ensures bound { result ≤ 780300 }
{
    12 * ((columns as usize) * (rows as usize))
}

/// The mesh of a plan, where memory of so many words and records is lent for it.
pub fn sized(plan: Plan, words: usize, records: usize) -> Result<Mesh, Refusal>
    ensures refusal { refusal_of result ≡ bad_size plan.columns plan.rows plan.rule words records }
    ensures mesh { IfOk result (λ m. meant m ≡ ruled (rule_of plan.rule) plan.columns plan.rows 0) }
{
    let m = plan.mesh()?;
    if words != words_needed(plan.columns, plan.rows) {
        return Err(Refusal::BadSize);
    }
    if !(1..=MOST_RECORDS).contains(&records) {
        return Err(Refusal::BadSize);
    }
    Ok(m)
}

/// What is known of memory that is lent for a plan and is in range: the plan's mesh, and the lowest empty record,
/// if one is.
#[derive(Clone, Copy, Debug, PartialEq, Eq)]
pub struct Judged {
    pub mesh: Mesh,
    pub empty: Option<usize>,
}

/// What is known of this memory, where it is lent for a plan and is in range. The records come first: there
/// are at most 64, and up to 3,072 words.
pub fn served(plan: Plan, words: &[u16], records: &[Record]) -> Result<Judged, Refusal>
    ensures refusal { refusal_of result ≡ bad_memory plan.columns plan.rows plan.rule (length words.now) (length records.now)
        (fits plan.columns plan.rows plan.rule words.now records.now) }
    ensures mesh { IfOk result (λ s. meant s.mesh ≡ ruled (rule_of plan.rule) plan.columns plan.rows 0) }
    ensures bound { IfOk result (λ s. IfSome s.empty (λ i. i < length records.now)) }
    ensures lowest { IfOk result (λ s. unwrap_or s.empty (length records.now) ≡ lowest records.now) }
{
    let mesh = sized(plan, words.len(), records.len())?;
    let empty = survey(mesh, records)?;
    if !words_fit(words, mesh, records.len() as u16) {
        return Err(Refusal::BadMemory);
    }
    Ok(Judged { mesh, empty })
}
