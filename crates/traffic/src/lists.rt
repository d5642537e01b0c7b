// A traffic list as a whole: its length, its lead, and what it is refused for.
ghost use Rattle.std.specs.Prelude.{◌≡◌, true, ◌≤◌, IfOk, length};
ghost use Rattle.route.specs.Mesh.{ruled};
ghost use Rattle.route.specs.Numbers.{rule_of};
ghost use Rattle.route.specs.Served.{refusal_of};
ghost use Rattle.route.specs.Coded.{meant};
ghost use Rattle.traffic.specs.Lists.{listed, lead, after_lead};
ghost use Rattle.traffic.specs.Calls.{bad_read};

use crate::headers::check_headers;
use route::{Mesh, Plan, Refusal};
use wormhole::sized;

/// The greatest number of bytes of a list.
pub const MOST_BYTES: usize = 194;

/// What a list says of its mesh, and its spare bits: numbers, since any bytes may stand there.
#[derive(Clone, Copy, Debug, PartialEq, Eq)]
pub struct Lead {
    pub columns: u8,
    pub rows: u8,
    pub rule: u8,
    pub spare: u8,
}

impl Lead {
    /// The plan of the list's mesh.
    pub fn plan(self) -> Plan
        ensures { result ≡ record { columns = self.columns; rows = self.rows; rule = self.rule } }
    {
        Plan {
            columns: self.columns,
            rows: self.rows,
            rule: self.rule,
        }
    }
}

// Can a list have so many bytes?
fn is_listed(bytes: usize) -> bool
    ensures { result ≡ listed bytes }
{
    if bytes < 2 {
        return false;
    }
    (bytes <= MOST_BYTES) & ((bytes - 2) % 3 == 0)
}

/// The lead of a list.
pub fn lead_of(list: &[u8]) -> Lead
    requires { 2 ≤ length list.now }
    ensures { result ≡ lead list.now }
{
    Lead {
        columns: list[0] / 16 + 1,
        rows: list[0] % 16 + 1,
        rule: list[1] / 32,
        spare: list[1] % 32,
    }
}

/// How many packets a list has.
pub fn packets_of(list: &[u8]) -> usize
    requires { listed (length list.now) ≡ true }
    ensures value { result ≡ length (after_lead list.now) }
    ensures bound { result ≤ 64 }
{
    (list.len() - 2) / 3
}

/// The mesh of a list that can be read into so many words and records.
pub fn readable(list: &[u8], words: usize, records: usize) -> Result<Mesh, Refusal>
    ensures refusal { refusal_of result ≡ bad_read list.now words records }
    ensures mesh { IfOk result (λ m. meant m ≡ ruled (rule_of (lead list.now).rule) (lead list.now).columns (lead list.now).rows 0) }
{
    if !is_listed(list.len()) {
        return Err(Refusal::BadList);
    }
    let lead = lead_of(list);
    let m = lead.plan().mesh()?;
    if lead.spare != 0 {
        return Err(Refusal::BadList);
    }
    sized(lead.plan(), words, records)?;
    check_headers(m, &list[2..])?;
    if records < packets_of(list) {
        return Err(Refusal::Full);
    }
    Ok(m)
}
