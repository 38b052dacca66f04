// Backup: a change list becomes a backup of a volume.
ghost use Rattle.std.specs.Prelude.{◌≡◌, ◌<◌, length};
ghost use Rattle.book.specs.Book.{volumes};
ghost use Rattle.book.specs.Layout.{book_of, told, Holds, Is};
ghost use Rattle.book.specs.FormFacts.{FormFacts};
ghost use Rattle.placer.specs.Working.{Job};
ghost use Rattle.intake.specs.Promises.{BacksUp};
ghost use Rattle.intake.specs.Closing.{closed_book, WorkedBy};
ghost use Rattle.words.specs.Lent.{lent};

use super::storing::{copy, store_all};
use fields::header;
use journal::slot;
use list::ChangeList;
use mover::changing::run_changes;
use permit::allowing::allow;
use placer::placing::Tally;
use words::limits::MAX_BLOCKS;
use words::refusals::Refusal;

// A backup's number, the blocks that it took from the free ones, and the entries that it touched.
#[derive(Clone, Copy)]
pub struct Backed {
    pub number: u16,
    pub taken: u16,
    pub touched: u16,
}

// The slot of the backup is added, and its day becomes the book's.
fn close(work: &mut [u8], v: u16, day: u16, first: u16, number: u16)
    requires holds { Holds work.old }
    requires work_len_bound { (length (book_of work.old).slots < (book_of work.old).sizes.s) × (v < volumes) }
    ensures { Is work.new (closed_book v day first number (book_of work.old)) }
{
    slot::append_slot(work, v, false, day, first, number);
    header::set_day(work, day);
}

// Both passes. The working copy starts as the book and ends as the book after the backup; the pool changes once no
// change can be refused.
fn work_through(
    book: &[u8],
    pool: &mut [u8],
    work: &mut [u8],
    list: ChangeList,
    v: u16,
    day: u16,
    until: u16,
) -> Result<Tally, Refusal>
    requires form_facts { FormFacts book.now × (work.old ≡ book.now) }
    requires job { Job (told book) pool.old list × (v < volumes) }
    requires book_len_bound { length (told book).slots < (told book).sizes.s }
    ensures { WorkedBy book (lent pool) (lent work) list.entry.bytes.now v day until result }
{
    let mut taker = [0u16; MAX_BLOCKS];
    let t = run_changes(book, pool, work, list, &mut taker, v, until)?;
    store_all(book, work, pool, list, &taker);
    let first = header::used_records(book);
    close(work, v, day, first, list.shape.changes);
    Ok(t)
}

// A change list becomes a backup.
pub fn backup(
    book: &mut [u8],
    pool: &mut [u8],
    spare: &mut [u8],
    volume: u16,
    day: u16,
    list: &[u8],
) -> Result<Backed, Refusal>
    ensures { BacksUp (lent book) (lent pool) (lent spare) volume day list result }
{
    let plan = allow(book, pool, spare.len(), volume, day, list)?;
    let len = book.len();
    let work = &mut spare[..len];
    copy(work, book);
    let t = work_through(book, pool, work, plan.list, volume, day, plan.until)?;
    copy(book, work);
    Ok(Backed {
        number: plan.number,
        taken: t.taken,
        touched: t.touched,
    })
}
