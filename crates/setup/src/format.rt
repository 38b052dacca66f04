// Format: a fresh book.
ghost use Rattle.setup.specs.Promises.{Formatted};
ghost use Rattle.words.specs.Lent.{lent};
ghost use Rattle.words.specs.Refusals.{refusal_number};

use fields::fresh;
use fields::sizes::Sizes;
use words::refusals::Refusal;

pub fn format(book: &mut [u8], sizes: Sizes) -> Result<(), Refusal>
    ensures { Formatted (lent book) sizes.n sizes.l sizes.s sizes.j (refusal_number result) }
{
    if !sizes.in_range() {
        return Err(Refusal::BadLayout);
    }
    if book.len() != sizes.size() {
        return Err(Refusal::BadLayout);
    }
    fresh::format(book, sizes);
    Ok(())
}
