// Retire: a volume gets no backup any more.
ghost use Rattle.std.specs.Prelude.{◌≡◌, true, ◌+◌, ◌<◌, ◌≤◌, length};
ghost use Rattle.words.specs.Lists.{all};
ghost use Rattle.book.specs.Book.{volumes};
ghost use Rattle.book.specs.Form.{pbn_ok};
ghost use Rattle.book.specs.Layout.{book_of, Holds};
ghost use Rattle.model.specs.Retire.{mapped_cells};
ghost use Rattle.retirer.specs.Closing.{WorkedBy};
ghost use Rattle.retirer.specs.Promises.{Retires};
ghost use Rattle.words.specs.Lent.{lent};

use super::allowing::allow;
use super::clearing::clear_cells;
use fields::header;
use journal::slot;
use words::put_bytes;
use words::refusals::Refusal;

// The working copy becomes the book after the call: its cells cleared, the retire slot added, the day set. Not where a
// cell's block has a count of 0.
fn work_through(work: &mut [u8], v: u16, day: u16, until: u16, cells: u16) -> Result<(), Refusal>
    requires holds { Holds work.old }
    requires v_lt_volumes { (v < volumes) × (length (book_of work.old).slots < (book_of work.old).sizes.s) }
    requires work_value { all (all (pbn_ok (book_of work.old).sizes.n)) (book_of work.old).maps ≡ true }
    requires v_len_bound { length (book_of work.old).records + mapped_cells (book_of work.old) v ≤ (book_of work.old).sizes.j }
    ensures { WorkedBy (lent work) v day until cells result }
{
    let first = header::used_records(work);
    clear_cells(work, v, until)?;
    slot::append_slot(work, v, true, day, first, cells);
    header::set_day(work, day);
    Ok(())
}

// A volume is retired. It answers how many of its cells were mapped.
pub fn retire(book: &mut [u8], spare: &mut [u8], volume: u16, day: u16) -> Result<u16, Refusal>
    ensures { Retires (lent book) (lent spare) volume day result }
{
    let plan = allow(book, spare.len(), volume, day)?;
    let len = book.len();
    let work = &mut spare[..len];
    put_bytes(work, 0, book);
    if let Err(refusal) = work_through(work, volume, day, plan.until, plan.cells) {
        return Err(refusal);
    }
    put_bytes(book, 0, work);
    Ok(plan.cells)
}
