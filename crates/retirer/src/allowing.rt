// Whether a volume can be retired, before its first cell: numbers 1 to 10, and what it goes by.
ghost use Rattle.retirer.specs.Allowing.{AllowedBy};

use super::clearing::mapped_cells;
use permit::allowing::{check_room, next_slot};
use words::refusals::Refusal;

// What a retirement goes by once it is allowed: the day until which the blocks of its cells are kept, and how many cells
// are mapped.
#[derive(Clone, Copy)]
pub struct Plan {
    pub until: u16,
    pub cells: u16,
}

pub fn allow(book: &[u8], spare: usize, v: u16, day: u16) -> Result<Plan, Refusal>
    ensures { AllowedBy book spare v day result }
{
    form::check(book)?;
    if spare < book.len() {
        return Err(Refusal::ShortSpare);
    }
    let slot = next_slot(book, v, day)?;
    let cells = mapped_cells(book, v);
    check_room(book, cells)?;
    Ok(Plan {
        until: slot.until,
        cells,
    })
}
