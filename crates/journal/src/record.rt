// The journal's records.
ghost use Rattle.std.specs.Prelude.{◌<◌, length};
ghost use Rattle.book.specs.Book.{rec_at};
ghost use Rattle.book.specs.Layout.{book_of, told, Holds, Is};
ghost use Rattle.book.specs.Next.{with_record};
ghost use Rattle.journal.specs.Struct.{RecordIs};

use fields::header;
use fields::header::U_OFFSET;
use fields::offsets::record_offset;
use words::{LBN, PBN, put_three, put_u16, u16_at};

// A change: at this LBN of its backup's volume the map named before, and then after.
#[derive(Clone, Copy)]
pub struct Record {
    pub lbn: LBN,
    pub before: PBN,
    pub after: PBN,
}

pub fn record_at(book: &[u8], q: u16) -> Record
    requires holds { Holds book.now }
    requires q_in_bounds { q < length (told book).records }
    ensures { RecordIs (rec_at (told book.entry).records q) result }
{
    let at = record_offset(book, q);
    Record {
        lbn: LBN(u16_at(book, at)),
        before: PBN(u16_at(book, at + 2)),
        after: PBN(u16_at(book, at + 4)),
    }
}

// The next record is used.
pub fn append_record(book: &mut [u8], lbn: LBN, before: PBN, after: PBN)
    requires holds { Holds book.old }
    requires book_len_bound { length (book_of book.old).records < (book_of book.old).sizes.j }
    ensures { Is book.new
        (with_record (record { lbn = lbn.0; before = before.0; after = after.0 }) (book_of book.old)) }
{
    let used = header::used_records(book);
    let at = record_offset(book, used);
    put_three(book, at, lbn.0, before.0, after.0);
    put_u16(book, U_OFFSET, used + 1);
}
