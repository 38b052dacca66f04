// What a book's entries come to, for callers that print their own page.
ghost use Rattle.std.specs.Prelude.{◌≡◌};
ghost use Rattle.words.specs.Outcome.{accepted, unless};
ghost use Rattle.words.specs.Refusals.{outcome_by};
ghost use Rattle.book.specs.Form.{form_number};
ghost use Rattle.book.specs.Layout.{told};
ghost use Rattle.counter.specs.Counted.{counted_up};

use super::counts::count_entries;
use fields::header;
use words::refusals::Refusal;

// How many blocks a book has, how many are held, and held with count 0, and the sum of the counts.
#[derive(Clone, Copy)]
pub struct Counted {
    pub blocks: u16,
    pub held: u16,
    pub waiting: u16,
    pub references: u32,
}

// Unlike the program tally, it takes books of every length.
pub fn count(book: &[u8]) -> Result<Counted, Refusal>
    ensures { outcome_by (λ c. c) result ≡ unless (form_number book.now) (accepted (counted_up (told book.entry))) }
{
    form::check(book)?;
    let t = count_entries(book);
    Ok(Counted {
        blocks: header::blocks(book),
        held: t.held as u16,
        waiting: t.waiting as u16,
        references: t.references,
    })
}
