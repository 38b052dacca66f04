// The cells of the eight maps.
ghost use Rattle.std.specs.Prelude.{◌≡◌, [], ◌<◌, get_or};
ghost use Rattle.words.specs.Numbers.{two};
ghost use Rattle.words.specs.Sections.{flat};
ghost use Rattle.book.specs.Book.{volumes, cell_at};
ghost use Rattle.book.specs.Layout.{book_of, told, Holds, Is};
ghost use Rattle.book.specs.Next.{with_cell};

use super::header;
use super::offsets::{cell_offset, maps_from};
use words::{LBN, PBN, put_u16, u16_at};

// The block that volume v's map names at an LBN.
pub fn cell(book: &[u8], v: u16, lbn: LBN) -> PBN
    requires holds { Holds book.now }
    requires v_lt_volumes { (v < volumes) × (lbn.0 < (told book).sizes.l) }
    ensures { result.0 ≡ cell_at (told book.entry).maps v lbn.0 }
{
    let at = cell_offset(book, v, lbn);
    PBN(u16_at(book, at))
}

pub fn set_cell(book: &mut [u8], v: u16, lbn: LBN, p: PBN)
    requires holds { Holds book.old }
    requires v_lt_volumes { (v < volumes) × (lbn.0 < (book_of book.old).sizes.l) }
    ensures { Is book.new (with_cell v lbn.0 p.0 (book_of book.old)) }
{
    let at = cell_offset(book, v, lbn);
    put_u16(book, at, p.0);
}

// Volume v's map, as it stands in the book.
pub fn row(book: &[u8], v: u16) -> &[u8]
    requires holds { Holds book.now }
    requires v_lt_volumes { v < volumes }
    ensures { result.now ≡ flat two (get_or (told book.entry).maps v []) }
{
    let size = header::cells(book) as usize * 2;
    let from = maps_from(book) + (v as usize) * size;
    let end = from + size;
    &book[from..end]
}
