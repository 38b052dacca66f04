// Where the sections start and where their elements stand, by the header's sizes.
ghost use Rattle.std.specs.Prelude.{◌≡◌, ◌+◌, ◌<◌, ◌≤◌, length};
ghost use Rattle.book.specs.Book.{volumes};
ghost use Rattle.book.specs.Layout.{slot_size, rec_size, maps_from, slots_from, records_from, told, Holds};
ghost use Rattle.book.specs.Layout.{current_offset, cell_offset, slot_offset, rec_offset};

use super::header;
use words::limits::LAST_VOLUME;
use words::{LBN, PBN};

// Where the entries start, the sizes of the elements in bytes, and how many maps there are.
pub const ENTRIES_FROM: usize = 36;

pub const ENTRY_SIZE: usize = 21;

// In layout 1, whose counts have one byte.
pub const NARROW_ENTRY_SIZE: usize = 20;

pub const SLOT_SIZE: usize = 8;

pub const REC_SIZE: usize = 6;

pub const VOLUMES: usize = LAST_VOLUME as usize + 1;

pub fn maps_from(book: &[u8]) -> usize
    requires { Holds book.now }
    ensures { result ≡ maps_from (told book.entry).sizes }
{
    let n = header::blocks(book) as usize;
    ENTRIES_FROM + n * ENTRY_SIZE
}

pub fn slots_from(book: &[u8]) -> usize
    requires { Holds book.now }
    ensures { result ≡ slots_from (told book.entry).sizes }
{
    let from = maps_from(book);
    let l = header::cells(book) as usize;
    from + VOLUMES * (l * 2)
}

pub fn records_from(book: &[u8]) -> usize
    requires { Holds book.now }
    ensures { result ≡ records_from (told book.entry).sizes }
{
    let from = slots_from(book);
    let s = header::slots(book) as usize;
    from + s * SLOT_SIZE
}

pub fn entry_offset(p: PBN) -> usize
    ensures { result ≡ current_offset p.0 }
{
    ENTRIES_FROM + (p.0 as usize) * ENTRY_SIZE
}

pub fn cell_offset(book: &[u8], v: u16, lbn: LBN) -> usize
    requires holds { Holds book.now }
    requires v_lt_volumes { (v < volumes) × (lbn.0 < (told book).sizes.l) }
    ensures value { result ≡ cell_offset (told book.entry).sizes v lbn.0 }
    ensures result_in_bounds { result + 1 < length book.now }
{
    let from = maps_from(book);
    let l = header::cells(book) as usize;
    from + ((v as usize) * (l * 2) + (lbn.0 as usize) * 2)
}

pub fn slot_offset(book: &[u8], q: u16) -> usize
    requires holds { Holds book.now }
    requires q_bound { q < (told book).sizes.s }
    ensures value { result ≡ slot_offset (told book.entry).sizes q }
    ensures slot_size_in_bounds { result + slot_size ≤ length book.now }
{
    slots_from(book) + (q as usize) * SLOT_SIZE
}

pub fn record_offset(book: &[u8], q: u16) -> usize
    requires holds { Holds book.now }
    requires q_bound { q < (told book).sizes.j }
    ensures value { result ≡ rec_offset (told book.entry).sizes q }
    ensures rec_size_in_bounds { result + rec_size ≤ length book.now }
{
    records_from(book) + (q as usize) * REC_SIZE
}
