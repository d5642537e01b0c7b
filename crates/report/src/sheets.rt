// The sheet of a list that drained.
ghost use Rattle.std.specs.Prelude.{◌≡◌, true, ◌≤◌, length, get_or};
ghost use Rattle.route.specs.Grid.{dist};
ghost use Rattle.traffic.specs.Lists.{listed, after_lead};
ghost use Rattle.traffic.specs.Coded.{puts};
ghost use Rattle.report.specs.Sweeps.{sum};
ghost use Rattle.report.specs.Text.{line, lines};
ghost use Rattle.report.specs.Calls.{drained_sheet};
ghost use Rattle.report.specs.Coded.{counts};

use crate::drains::total_of;
use crate::texts::{put_number, put_said, put_text};
use crate::turns::{Counted, RECORDS};
use traffic::{Header, Page, header_of, packets_of};

// How many hops a packet needs.
fn hops(h: Header) -> u32
    ensures { result ≡ dist h.source h.destination }
{
    (h.source.column.hops(h.destination.column) as u32)
        + (h.source.row.hops(h.destination.row) as u32)
}

// Writes the line of packet i.
fn put_line(page: &mut Page, i: u32, h: Header, moves: u32)
    ensures { page.new ≡ puts page.old (line i h moves) }
{
    put_number(page, i);
    page.put(b' ');
    put_number(page, hops(h));
    put_said(page, b" ", moves);
}

// Writes the line of each packet.
fn put_lines(page: &mut Page, list: &[u8], all: &[Counted; RECORDS])
    requires { listed (length list.now) ≡ true }
    ensures { page.new ≡ puts page.old (lines 0 (after_lead list.now) (λ i. get_or (counts all.now) i 0)) }
{
    for (i, counted) in all[..packets_of(list)].iter().enumerate() {
        put_line(page, i as u32, header_of(list, i), counted.moves);
    }
}

// Writes the sheet of a list whose packets made these moves.
pub fn put_sheet(page: &mut Page, list: &[u8], all: &[Counted; RECORDS])
    requires listed { listed (length list.now) ≡ true }
    requires few { sum (counts all.now) ≤ 396800 }
    ensures { page.new ≡ puts page.old (drained_sheet list.now (counts all.now)) }
{
    put_text(page, b"packet hops moves\n");
    put_lines(page, list, all);
    put_said(page, b"total ", total_of(all));
}
