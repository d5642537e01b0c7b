// Is memory in range? What is out of range is refused before a step looks at it.
ghost use Rattle.std.specs.Prelude.{◌≡◌, ◌<◌, length, unwrap_or, IfSome, IfOk};
ghost use Rattle.route.specs.Grid.{pick};
ghost use Rattle.route.specs.Served.{refusal_of};
ghost use Rattle.route.specs.Coded.{meant};
ghost use Rattle.wormhole.specs.Range.{every, at_most, names, blank, flits_served, packet_fits, record_fits, words_fit};
ghost use Rattle.wormhole.specs.Calls.{needed, lowest};
ghost use Rattle.wormhole.specs.Coded.{built, laid};

use crate::records::Record;
use route::{Mesh, Refusal, is_channel};

/// How many flits a channel can hold.
pub const DEPTH: u16 = 1;

/// The greatest number of flits of a packet.
pub const MOST_FLITS: u8 = 200;

// Is a word 0, or 1 + the number of a channel that exists?
fn names(m: Mesh, word: u16) -> bool
    ensures { result ≡ names (meant m) word }
{
    if word == 0 {
        return true;
    }
    is_channel(m, word - 1)
}

// These two are loops and no `all`: they are most of what a move costs, and the compiler makes more of a
// loop.
//
// Is each word of a section at most so great?
fn all_at_most(section: &[u16], most: u16) -> bool
    ensures { result ≡ every (at_most most) section.now }
{
    for &word in section {
        if most < word {
            return false;
        }
    }
    true
}

// Does each word of a section name a channel, or none?
fn all_name(section: &[u16], m: Mesh) -> bool
    ensures { result ≡ every (names (meant m)) section.now }
{
    for &word in section {
        if !names(m, word) {
            return false;
        }
    }
    true
}

/// Are all words in range, in a memory of so many records? Kept apart: within a larger function its loops run
/// short of registers.
#[inline(never)]
pub fn words_fit(words: &[u16], m: Mesh, count: u16) -> bool
    requires { length words.now ≡ needed m.columns m.rows }
    ensures { result ≡ words_fit (built m) count (laid m words.now) }
{
    let n = m.channels();
    let end = n + n;
    if !all_at_most(&words[0..n], count) {
        return false;
    }
    if !all_at_most(&words[n..end], DEPTH) {
        return false;
    }
    all_name(&words[end..], m)
}

/// Can a packet have so many flits?
pub fn flits_served(flits: u8) -> bool
    ensures { result ≡ flits_served flits }
{
    (1..=MOST_FLITS).contains(&flits)
}

// Can this be a packet's record, but for its channels?
fn packet_fits(m: Mesh, r: Record) -> bool
    ensures { result ≡ packet_fits (meant m) r }
{
    let nodes = m.nodes();
    ((r.source < nodes) & (r.destination < nodes))
        & ((r.source != r.destination)
            & (flits_served(r.flits) & ((r.waiting <= r.flits) & (r.eaten <= r.flits))))
}

/// Is a record in range? An empty one is all zero.
pub fn record_fits(m: Mesh, r: Record) -> bool
    ensures { result ≡ record_fits (meant m) r }
{
    if !(names(m, r.rear) & names(m, r.front)) {
        return false;
    }
    if r.live == 0 {
        return r == Record::default();
    }
    (r.live == 1) & packet_fits(m, r)
}

/// The lowest empty record, if one is, of records that are all in range. It passes over them once.
pub fn survey(m: Mesh, records: &[Record]) -> Result<Option<usize>, Refusal>
    ensures refusal { refusal_of result ≡ pick (every (record_fits (meant m)) records.now) 0 9 }
    ensures bound { IfOk result (λ o. IfSome o (λ i. i < length records.now)) }
    ensures lowest { IfOk result (λ o. unwrap_or o (length records.now) ≡ lowest records.now) }
{
    let mut empty = None;
    for (i, &r) in records.iter().enumerate() {
        if !record_fits(m, r) {
            return Err(Refusal::BadMemory);
        }
        if (r.live == 0) & empty.is_none() {
            empty = Some(i);
        }
    }
    Ok(empty)
}
