// The backup slots.
ghost use Rattle.std.specs.Prelude.{◌≡◌, ◌+◌, ◌<◌, ◌≤◌, length};
ghost use Rattle.std.proofs.lemmas.List.Edits.{sets};
ghost use Rattle.book.specs.Book.{slot_at};
ghost use Rattle.book.specs.Layout.{book_of, slot_size, slot_bytes, told, Holds, Is};
ghost use Rattle.book.specs.Next.{with_slot};
ghost use Rattle.journal.specs.Struct.{SlotIs};

use fields::header;
use fields::header::B_OFFSET;
use fields::offsets::slot_offset;
use words::{put_three, put_u16, u16_at};

// A used slot: a backup of a volume on a day, or the day on which the volume was retired, and its records.
#[derive(Clone, Copy)]
pub struct Slot {
    pub volume: u16,
    pub retire: bool,
    pub day: u16,
    pub first: u16,
    pub number: u16,
}

pub fn slot_at(book: &[u8], q: u16) -> Slot
    requires holds { Holds book.now }
    requires q_in_bounds { q < length (told book).slots }
    ensures { SlotIs (slot_at (told book.entry).slots q) result }
{
    let at = slot_offset(book, q);
    Slot {
        volume: u16::from(book[at]),
        retire: book[at + 1] == 1,
        day: u16_at(book, at + 2),
        first: u16_at(book, at + 4),
        number: u16_at(book, at + 6),
    }
}

// The slot's bytes at an offset.
fn put_slot(b: &mut [u8], at: usize, volume: u16, retire: bool, day: u16, first: u16, number: u16)
    requires slot_size_in_bounds { at + slot_size ≤ length b.old }
    requires volume_bound { volume < 256 }
    ensures { b.new ≡ sets b.old at
        (slot_bytes (record { volume = volume; retire = retire; day = day; first = first; number = number })) }
{
    b[at] = volume as u8;
    b[at + 1] = retire as u8;
    put_three(b, at + 2, day, first, number);
}

// The next slot is used.
pub fn append_slot(book: &mut [u8], volume: u16, retire: bool, day: u16, first: u16, number: u16)
    requires holds { Holds book.old }
    requires book_len_bound { (length (book_of book.old).slots < (book_of book.old).sizes.s) × (volume < 256) }
    ensures { Is book.new
        (with_slot (record { volume = volume; retire = retire; day = day; first = first; number = number }) (book_of book.old)) }
{
    let used = header::used_slots(book);
    let at = slot_offset(book, used);
    put_slot(book, at, volume, retire, day, first, number);
    put_u16(book, B_OFFSET, used + 1);
}
