// Text, written byte by byte on a page.
ghost use Rattle.std.specs.Prelude.{◌≡◌};
ghost use Rattle.traffic.specs.Coded.{puts};
ghost use Rattle.report.specs.Text.{decimal, said};

use traffic::Page;

// Writes bytes.
pub fn put_text(page: &mut Page, text: &[u8])
    ensures { page.new ≡ puts page.old text.now }
{
    for &byte in text {
        page.put(byte);
    }
}

// Writes a number in decimal.
pub fn put_number(page: &mut Page, n: u32)
    ensures { page.new ≡ puts page.old (decimal n) }
{
    if n >= 10 {
        put_number(page, n / 10);
    }
    page.put(b'0' + (n % 10) as u8);
}

// Writes a word, a number and a newline.
pub fn put_said(page: &mut Page, word: &[u8], n: u32)
    ensures { page.new ≡ puts page.old (said word.now n) }
{
    put_text(page, word);
    put_number(page, n);
    page.put(b'\n');
}
