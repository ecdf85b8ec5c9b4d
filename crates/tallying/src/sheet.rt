// The lines of the tally sheet.
ghost use Rattle.std.specs.Prelude.{◌≡◌, ◌+◌, ◌*◌, ◌≤◌, ◌<◌, length};
ghost use Rattle.lines.specs.Inner.Page.{Puts, HasRoom};
ghost use Rattle.record.specs.Text.{put_at};
ghost use Rattle.record.specs.Line.{longest_tally, longest_records, tally_line, records_line};
ghost use Rattle.record.specs.Marks.{number_count};
ghost use Rattle.record.specs.Tally.{tally_lines};
ghost use Rattle.record.specs.Counters.{shown_from};
ghost use Rattle.tallying.specs.Inner.Rows.{Showable};

use crate::Counters;
use lines::Page;

// Puts the row of a number on the page. It takes at most `longest_tally` bytes.
fn put_row(page: &mut Page, number: usize, strikes: u64, candidates: u64)
    requires { HasRoom longest_tally page.old × (number < number_count) }
    ensures text { Puts (tally_line number strikes candidates) page.old page.new }
    ensures short { page.new.at ≤ page.old.at + longest_tally }
{
    page.put_decimal(number as u64);
    page.put_named(b" ", strikes);
    page.put_named(b" ", candidates);
    page.put_text(b"\n");
}

// Puts the row of a number on the page, if it is marked.
fn put_marked(page: &mut Page, marks: &[u8], counters: &[u64], number: usize)
    requires { Showable marks.now counters.now number 1 page.old.at page.old.bytes.now }
    ensures text { Puts (tally_lines (shown_from marks.now counters.now number 1)) page.old page.new }
    ensures short { page.new.at ≤ page.old.at + longest_tally }
{
    if marks[number] > 0 {
        let place = number * Counters::EACH;
        put_row(page, number, counters[place], counters[place + 1]);
    }
}

// Puts the rows of so many numbers from one on, of those that are marked, at the beginning of the output, and gives the place after them.
pub fn put_rows(
    output: &mut [u8],
    marks: &[u8],
    counters: &[u64],
    from: usize,
    count: usize,
) -> usize
    requires { Showable marks.now counters.now from count 0 output.old }
    ensures text { record { next = result; output = output.new }
        ≡ put_at (tally_lines (shown_from marks.now counters.now from count)) output.old 0 }
    ensures short { result ≤ count * longest_tally }
{
    let mut page = Page {
        bytes: output,
        at: 0,
    };
    for number in from..from + count {
        put_marked(&mut page, marks, counters, number);
    }
    page.at
}

// Puts the tally sheet's last line at the beginning of the output, and gives the place after it. It takes at most `longest_records` bytes.
pub fn put_records(output: &mut [u8], records: u64) -> usize
    requires { longest_records ≤ length output.old }
    ensures text { record { next = result; output = output.new } ≡ put_at (records_line records) output.old 0 }
    ensures short { result ≤ longest_records }
{
    let mut page = Page {
        bytes: output,
        at: 0,
    };
    page.put_decimal(records);
    page.put_text(b"\n");
    page.at
}
