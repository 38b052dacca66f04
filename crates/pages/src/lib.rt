// Pages that are written from a book.

#![tactic(auto)]

mod line;

ghost use Rattle.std.specs.Prelude.{◌≡◌, ◌≤◌, length, take};
ghost use Rattle.words.specs.Laying.{Stored};
ghost use Rattle.words.specs.Refusals.{refusal_number};
ghost use Rattle.pages.specs.Tally.{tally_number, tally_page};
ghost use Rattle.pages.specs.Pages.{counts_page, page_room};

use counter::counts::{Counts, count_entries};
use line::put_line;
use words::refusals::Refusal;

const LONGEST: usize = 65536;

// Bytes that have room for any page.
pub const PAGE_ROOM: usize = 80;

fn check(input: &[u8]) -> Result<(), Refusal>
    ensures { refusal_number result ≡ tally_number input.now }
{
    if input.len() > LONGEST {
        return Err(Refusal::BadLayout);
    }
    form::check(input)
}

// The five lines of a book of n blocks, to the front of the page. It answers their length.
fn put_counts(page: &mut [u8], n: u16, t: Counts) -> usize
    requires { length (counts_page n t) ≤ length page.old }
    ensures { Stored page.old 0 (counts_page n t) page.new result }
{
    let held_at = put_line(page, 0, b"blocks", n as u32);
    let free_at = put_line(page, held_at, b"held", t.held);
    let waiting_at = put_line(page, free_at, b"free", t.free);
    let references_at = put_line(page, waiting_at, b"waiting", t.waiting);
    put_line(page, references_at, b"references", t.references)
}

// What the program tally prints of its input. It answers the page's length.
pub fn tally(input: &[u8], page: &mut [u8; PAGE_ROOM]) -> usize
    ensures page_after { take result page.new ≡ tally_page input.now }
    ensures value { result ≡ length (tally_page input.now) }
    ensures upper_bound { result ≤ page_room }
{
    if let Err(refusal) = check(input) {
        return put_line(page, 0, b"refused", u32::from(u16::from(refusal)));
    }
    let n = fields::header::blocks(input);
    put_counts(page, n, count_entries(input))
}
