// The sizes of a book, and how much of it is used.
ghost use Rattle.std.specs.Prelude.{◌≡◌};
ghost use Rattle.words.specs.Refusals.{outcome_by};
ghost use Rattle.model.specs.Views.{sizes_bytes, used_bytes};
ghost use Rattle.figures.specs.Told.{sizes_told, used_told};

use fields::header;
use fields::sizes::Sizes;
use words::refusals::Refusal;

// Slots and records used, and the book's day.
#[derive(Clone, Copy)]
pub struct Usage {
    pub slots: u16,
    pub records: u16,
    pub day: u16,
}

pub fn sizes(book: &[u8]) -> Result<Sizes, Refusal>
    ensures { outcome_by sizes_told result ≡ sizes_bytes book.now }
{
    form::check(book)?;
    let sizes = Sizes::of(book);
    Ok(sizes)
}

pub fn used(book: &[u8]) -> Result<Usage, Refusal>
    ensures { outcome_by used_told result ≡ used_bytes book.now }
{
    form::check(book)?;
    Ok(Usage {
        slots: header::used_slots(book),
        records: header::used_records(book),
        day: header::day(book),
    })
}
