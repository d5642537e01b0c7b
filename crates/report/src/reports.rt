// The call that makes a list's sheet.
ghost use Rattle.std.specs.Prelude.{◌≡◌, IfOk, min, length};
ghost use Rattle.route.specs.Mesh.{ruled};
ghost use Rattle.route.specs.Numbers.{rule_of};
ghost use Rattle.route.specs.Served.{refusal_of};
ghost use Rattle.route.specs.Coded.{meant};
ghost use Rattle.traffic.specs.Lists.{lead};
ghost use Rattle.traffic.specs.Calls.{bad_read, written_of};
ghost use Rattle.report.specs.Calls.{need, report};
ghost use Rattle.report.specs.Coded.{printed, prints};

use crate::drains::{drain, is_idle};
use crate::sheets::put_sheet;
use crate::texts::{put_said, put_text};
use crate::turns::{Counted, RECORDS};
use route::{Mesh, Refusal};
use traffic::{Page, lead_of, readable};
use wormhole::words_needed;

// The fewest bytes that are lent for a sheet; none is longer.
const SHEET_BYTES: usize = 1024;

// The mesh of a list that can be read into the first of so many words.
fn judge(list: &[u8], words: usize) -> Result<Mesh, Refusal>
    ensures refusal { refusal_of result ≡ bad_read list.now (min (need list.now) words) 64 }
    ensures mesh { IfOk result (λ m. meant m ≡ ruled (rule_of (lead list.now).rule) (lead list.now).columns (lead list.now).rows 0) }
{
    if list.len() < 2 {
        return readable(list, words, RECORDS);
    }
    let lead = lead_of(list);
    readable(
        list,
        words.min(words_needed(lead.columns, lead.rows)),
        RECORDS,
    )
}

// Writes the sheet of a list.
fn put_report(page: &mut Page, list: &[u8], words: &mut [u16])
    ensures { printed words.new page.new ≡ prints list.now words.old page.old }
{
    let m = match judge(list, words.len()) {
        Ok(m) => m,
        Err(refusal) => {
            put_said(page, b"refused ", u8::from(refusal) as u32);
            return;
        }
    };
    let need = words_needed(m.columns, m.rows);
    let mut all = [Counted::default(); RECORDS];
    drain(list, m, &mut words[0..need], &mut all);
    if is_idle(&all) {
        put_sheet(page, list, &all);
    } else {
        put_text(page, b"stalled\n");
    }
}

/// Reads a list, drains it, writes its sheet at the start of lent bytes, and answers its length. With a
/// refusal nothing is touched.
pub fn mesh_report(list: &[u8], words: &mut [u16], out: &mut [u8]) -> Result<u16, Refusal>
    ensures { record { answer = written_of result; words = words.new; bytes = out.new }
        ≡ report list.now words.old out.old }
{
    if out.len() < SHEET_BYTES {
        return Err(Refusal::BadSize);
    }
    let mut page = Page::new(out);
    put_report(&mut page, list, words);
    Ok(page.len() as u16)
}
