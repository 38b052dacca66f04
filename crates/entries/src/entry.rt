// The entry of a pool block: count, state, expiry and fingerprint.
ghost use Rattle.std.specs.Prelude.{◌≡◌, ◌<◌, length};
ghost use Rattle.words.specs.Blocks.{print_size};
ghost use Rattle.book.specs.Book.{entry_at};
ghost use Rattle.book.specs.Layout.{book_of, told, Holds, Is};
ghost use Rattle.book.specs.Next.{count_as, expiry_as, held_as, made_free, with_entry};

use fields::offsets::entry_offset;
use words::{PBN, PRINT_SIZE, fill, put_bytes, put_u16, u16_at};

// Where the fields after the count stand within an entry.
const STATE: usize = 2;

const EXPIRY: usize = 3;

const PRINT: usize = 5;

const FREE: u8 = 0;

const HELD: u8 = 1;

pub fn count(book: &[u8], p: PBN) -> u16
    requires holds { Holds book.now }
    requires p_bound { p.0 < (told book).sizes.n }
    ensures { result ≡ (entry_at (told book.entry).entries p.0).count }
{
    let at = entry_offset(p);
    u16_at(book, at)
}

pub fn is_held(book: &[u8], p: PBN) -> bool
    requires holds { Holds book.now }
    requires p_bound { p.0 < (told book).sizes.n }
    ensures { result ≡ (entry_at (told book.entry).entries p.0).held }
{
    let at = entry_offset(p);
    book[at + STATE] == HELD
}

pub fn expiry(book: &[u8], p: PBN) -> u16
    requires holds { Holds book.now }
    requires p_bound { p.0 < (told book).sizes.n }
    ensures { result ≡ (entry_at (told book.entry).entries p.0).expiry }
{
    let at = entry_offset(p);
    u16_at(book, at + EXPIRY)
}

// The block's fingerprint, 16 bytes of the book.
pub fn print_of(book: &[u8], p: PBN) -> &[u8]
    requires holds { Holds book.now }
    requires p_bound { p.0 < (told book).sizes.n }
    ensures { result.now ≡ (entry_at (told book.entry).entries p.0).print }
{
    let at = entry_offset(p);
    let from = at + PRINT;
    let end = from + PRINT_SIZE;
    &book[from..end]
}

pub fn set_count(book: &mut [u8], p: PBN, c: u16)
    requires holds { Holds book.old }
    requires p_bound { p.0 < (book_of book.old).sizes.n }
    ensures { Is book.new (with_entry (count_as c) p.0 (book_of book.old)) }
{
    let at = entry_offset(p);
    put_u16(book, at, c);
}

pub fn set_expiry(book: &mut [u8], p: PBN, day: u16)
    requires holds { Holds book.old }
    requires p_bound { p.0 < (book_of book.old).sizes.n }
    ensures { Is book.new (with_entry (expiry_as day) p.0 (book_of book.old)) }
{
    let at = entry_offset(p);
    put_u16(book, at + EXPIRY, day);
}

// The block becomes held with this fingerprint; its count and expiry stay.
pub fn hold(book: &mut [u8], p: PBN, print: &[u8])
    requires holds { Holds book.old }
    requires p_bound { (p.0 < (book_of book.old).sizes.n) × (length print.now ≡ print_size) }
    ensures { Is book.new (with_entry (held_as print.now) p.0 (book_of book.old)) }
{
    let at = entry_offset(p);
    book[at + STATE] = HELD;
    put_bytes(book, at + PRINT, print);
}

// The block becomes free with a zero fingerprint; its count and expiry stay.
pub fn free(book: &mut [u8], p: PBN)
    requires holds { Holds book.old }
    requires p_bound { p.0 < (book_of book.old).sizes.n }
    ensures { Is book.new (with_entry made_free p.0 (book_of book.old)) }
{
    let at = entry_offset(p);
    book[at + STATE] = FREE;
    fill(book, at + PRINT, PRINT_SIZE, 0);
}
