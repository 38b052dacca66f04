// One pass over the blocks, and the call around it.
ghost use Rattle.std.specs.Prelude.{◌≡◌, map, ◌<◌};
ghost use Rattle.words.specs.Lists.{count_of};
ghost use Rattle.book.specs.Book.{entry_at};
ghost use Rattle.book.specs.Layout.{book_of, told, Holds, Is};
ghost use Rattle.book.specs.Next.{with_entry, with_entries};
ghost use Rattle.model.specs.Collect.{is_over, swept_entry};
ghost use Rattle.collector.specs.Promises.{Collects};
ghost use Rattle.words.specs.Lent.{lent};

use entries::entry;
use fields::header;
use words::PBN;
use words::limits::MAX_DAY;
use words::refusals::Refusal;

// The block is held, no map names it, and its last day is past.
fn is_over(book: &[u8], p: PBN, day: u16) -> bool
    requires holds { Holds book.now }
    requires p_bound { p.0 < (told book).sizes.n }
    ensures { result ≡ is_over day (entry_at (told book.entry).entries p.0) }
{
    entry::is_held(book, p) & (entry::count(book, p) == 0) & (entry::expiry(book, p) < day)
}

// Frees the block if it is over, and says whether it did.
fn free_over(book: &mut [u8], p: PBN, day: u16) -> bool
    requires holds { Holds book.old }
    requires p_bound { p.0 < (book_of book.old).sizes.n }
    ensures value { result ≡ is_over day (entry_at (book_of book.old).entries p.0) }
    ensures is { Is book.new (with_entry (swept_entry day) p.0 (book_of book.old)) }
{
    if !is_over(book, p, day) {
        return false;
    }
    entry::free(book, p);
    true
}

// One pass over the blocks; the answer is how many became free.
fn sweep(book: &mut [u8], day: u16) -> u16
    requires { Holds book.old }
    ensures value { result ≡ count_of (is_over day) (book_of book.old).entries }
    ensures is { Is book.new
        (with_entries (map (swept_entry day) (book_of book.old).entries) (book_of book.old)) }
{
    let n = header::blocks(book);
    let mut freed: u16 = 0;
    for p in 0..n {
        if free_over(book, PBN(p), day) {
            freed += 1;
        }
    }
    freed
}

// The call: it answers how many blocks became free.
pub fn collect(book: &mut [u8], day: u16) -> Result<u16, Refusal>
    ensures { Collects (lent book) day result }
{
    form::check(book)?;
    if day > MAX_DAY {
        return Err(Refusal::BadDay);
    }
    let today = header::day(book);
    if day < today {
        return Err(Refusal::BadDay);
    }
    let freed = sweep(book, day);
    header::set_day(book, day);
    Ok(freed)
}
