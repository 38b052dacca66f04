// The header's numbers and the retentions.
ghost use Rattle.std.specs.Prelude.{◌≡◌, ◌<◌, length};
ghost use Rattle.book.specs.Book.{volumes, retention_of};
ghost use Rattle.book.specs.Layout.{book_of, told, Holds, Is};
ghost use Rattle.book.specs.Next.{with_day, with_cursor, with_retention};

use words::{put_u16, u16_at};

// The layout that format makes and that the calls take.
pub const LAYOUT: u16 = 3;

// The first layout, whose counts have one byte.
pub const NARROW_LAYOUT: u16 = 1;

pub const HEADER_SIZE: usize = 20;

// Where the header's numbers stand.
pub const N_OFFSET: usize = 2;

pub const L_OFFSET: usize = 4;

pub const S_OFFSET: usize = 6;

pub const J_OFFSET: usize = 8;

pub const B_OFFSET: usize = 10;

pub const U_OFFSET: usize = 12;

pub const DAY_OFFSET: usize = 14;

pub const CURSOR_OFFSET: usize = 16;

pub const ZERO_OFFSET: usize = 18;

// N, the pool's blocks.
pub fn blocks(book: &[u8]) -> u16
    requires { Holds book.now }
    ensures { result ≡ (told book.entry).sizes.n }
{
    u16_at(book, N_OFFSET)
}

// L, the logical blocks of a volume.
pub fn cells(book: &[u8]) -> u16
    requires { Holds book.now }
    ensures { result ≡ (told book.entry).sizes.l }
{
    u16_at(book, L_OFFSET)
}

// S, the backup slots.
pub fn slots(book: &[u8]) -> u16
    requires { Holds book.now }
    ensures { result ≡ (told book.entry).sizes.s }
{
    u16_at(book, S_OFFSET)
}

// J, the journal's slots.
pub fn journal(book: &[u8]) -> u16
    requires { Holds book.now }
    ensures { result ≡ (told book.entry).sizes.j }
{
    u16_at(book, J_OFFSET)
}

// B, the slots used.
pub fn used_slots(book: &[u8]) -> u16
    requires { Holds book.now }
    ensures { result ≡ length (told book.entry).slots }
{
    u16_at(book, B_OFFSET)
}

// U, the records used.
pub fn used_records(book: &[u8]) -> u16
    requires { Holds book.now }
    ensures { result ≡ length (told book.entry).records }
{
    u16_at(book, U_OFFSET)
}

pub fn day(book: &[u8]) -> u16
    requires { Holds book.now }
    ensures { result ≡ (told book.entry).day }
{
    u16_at(book, DAY_OFFSET)
}

pub fn cursor(book: &[u8]) -> u16
    requires { Holds book.now }
    ensures { result ≡ (told book.entry).cursor }
{
    u16_at(book, CURSOR_OFFSET)
}

// The days that volume v keeps a replaced backup, 0 where it isn't enrolled.
pub fn retention(book: &[u8], v: u16) -> u16
    requires holds { Holds book.now }
    requires v_lt_volumes { v < volumes }
    ensures { result ≡ retention_of (told book.entry) v }
{
    u16_at(book, HEADER_SIZE + (v as usize) * 2)
}

pub fn set_day(book: &mut [u8], day: u16)
    requires { Holds book.old }
    ensures { Is book.new (with_day day (book_of book.old)) }
{
    put_u16(book, DAY_OFFSET, day);
}

pub fn set_cursor(book: &mut [u8], cursor: u16)
    requires { Holds book.old }
    ensures { Is book.new (with_cursor cursor (book_of book.old)) }
{
    put_u16(book, CURSOR_OFFSET, cursor);
}

pub fn set_retention(book: &mut [u8], v: u16, days: u16)
    requires holds { Holds book.old }
    requires v_lt_volumes { v < volumes }
    ensures { Is book.new (with_retention v days (book_of book.old)) }
{
    put_u16(book, HEADER_SIZE + (v as usize) * 2, days);
}
