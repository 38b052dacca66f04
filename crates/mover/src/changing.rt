// The changes of a list, one after another, on the working copy of the book.
ghost use Rattle.std.specs.Prelude.{◌≡◌, ◌<◌};
ghost use Rattle.runs.specs.Changes.{change_at};
ghost use Rattle.book.specs.Book.{volumes};
ghost use Rattle.book.specs.Layout.{book_of, told, Holds};
ghost use Rattle.finder.specs.Indexed.{Indexed};
ghost use Rattle.placer.specs.Working.{Job, Standing};
ghost use Rattle.mover.specs.Stepping.{no_tally, SteppedBy, StillIndexed, RanBy};
ghost use Rattle.words.specs.Lent.{lent};

use super::moving::move_to;
use finder::Index;
use index::build;
use list::ChangeList;
use placer::placing::{Tally, place};
use words::LBN;
use words::limits::Table;
use words::refusals::Refusal;

// Change i, whose LBN is given.
fn change(
    book: &[u8],
    pool: &[u8],
    work: &mut [u8],
    list: ChangeList,
    taker: &mut Table,
    index: &mut Index,
    v: u16,
    until: u16,
    i: usize,
    lbn: LBN,
    t: Tally,
) -> Result<Tally, Refusal>
    requires holds { Holds book.now × Holds work.old }
    requires job { Job (told book) pool.now list × (i < list.shape.changes) × (v < volumes) }
    requires standing { Standing (told book) (book_of work.old) taker.old t i i }
    requires lbn_value { lbn.0 ≡ (change_at list.bytes.now i).lbn }
    requires indexed { Indexed (book_of work.old).entries index.old.heads index.old.nexts }
    ensures stepped_by { SteppedBy book pool (lent work) list.entry.bytes.now (lent taker) v until i t result }
    ensures still_indexed { StillIndexed (lent work) (lent index) result }
{
    let (p, u) = place(book, pool, work, list, taker, index, i, t)?;
    move_to(work, v, lbn, p, until, u)
}

// All changes in order; the first refusal leaves early. The index of the working copy lives here.
pub fn run_changes(
    book: &[u8],
    pool: &[u8],
    work: &mut [u8],
    list: ChangeList,
    taker: &mut Table,
    v: u16,
    until: u16,
) -> Result<Tally, Refusal>
    requires holds { Holds book.now × Holds work.old }
    requires job { Job (told book) pool.now list × (v < volumes) }
    requires standing { Standing (told book) (book_of work.old) taker.old no_tally 0 0 }
    ensures { RanBy book pool (lent work) list.entry.bytes.now (lent taker) v until result }
{
    let mut index = Index::new();
    build(work, &mut index);
    let mut t = Tally {
        taken: 0,
        touched: 0,
    };
    let mut at = list.start();
    for i in 0..list.shape.changes {
        let lbn = list.lbn_at(at);
        let step = change(
            book, pool, work, list, taker, &mut index, v, until, i as usize, lbn, t,
        );
        let Ok(next) = step else {
            return step;
        };
        t = next;
        at = list.next(at);
    }
    Ok(t)
}
