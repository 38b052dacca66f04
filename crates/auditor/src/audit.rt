// Audit: whether the book is sound.
ghost use Rattle.std.specs.Prelude.{◌≡◌};
ghost use Rattle.book.specs.Layout.{told};
ghost use Rattle.book.specs.FormFacts.{FormFacts};
ghost use Rattle.model.specs.Audit.{audit};
ghost use Rattle.model.specs.OnBytes.{audit_bytes};
ghost use Rattle.words.specs.Refusals.{outcome_by};

use super::prints::prints_sound;
use accounts::maps::maps_match;
use accounts::matching::entries_match;
use replay::notes::{CELLS, Tables};
use replay::records::take_journal;
use words::UNMAPPED;
use words::limits::MAX_BLOCKS;
use words::refusals::Refusal;

// The records leave cells and expiries, the maps leave counts. That no current map names a free block follows from form
// and the counts.
fn is_sound(book: &[u8]) -> bool
    requires { FormFacts book.now }
    ensures { result ≡ audit (told book.entry) }
{
    let mut tables = Tables {
        cells: [UNMAPPED; CELLS],
        expiries: [0u16; MAX_BLOCKS],
    };
    if !take_journal(book, &mut tables) {
        return false;
    }
    let mut counts = [0u16; MAX_BLOCKS];
    if !maps_match(book, &tables.cells, &mut counts) {
        return false;
    }
    if !entries_match(book, &counts, &tables.expiries) {
        return false;
    }
    prints_sound(book)
}

// Whether a book in form is sound.
pub fn audit(book: &[u8]) -> Result<bool, Refusal>
    ensures { outcome_by (λ s. s) result ≡ audit_bytes book.now }
{
    form::check(book)?;
    Ok(is_sound(book))
}
