// The sizes that a book may have, and how long it is then.
ghost use Rattle.std.specs.Prelude.{◌*◌, ◌≤◌, ◌≡◌, length};
ghost use Rattle.words.specs.Numbers.{num};
ghost use Rattle.book.specs.Form.{between, sizes_ok};
ghost use Rattle.book.specs.Layout.{current, header_size, entry_size, book_size, sizes_of};
ghost use Rattle.fields.specs.InLayout.{in_layout};

use super::header::{J_OFFSET, L_OFFSET, LAYOUT, N_OFFSET, NARROW_LAYOUT, S_OFFSET};
use super::offsets::{ENTRIES_FROM, ENTRY_SIZE, NARROW_ENTRY_SIZE, REC_SIZE, SLOT_SIZE, VOLUMES};
use words::limits::{MAX_BLOCKS, MAX_LBNS, MAX_RECORDS, MAX_SLOTS};
use words::u16_at;

// Pool blocks, logical blocks of a volume, backup slots and journal slots.
#[derive(Clone, Copy)]
pub struct Sizes {
    pub n: u16,
    pub l: u16,
    pub s: u16,
    pub j: u16,
}

impl Sizes {
    // Those in the book's header.
    pub fn of(book: &[u8]) -> Sizes
        requires { header_size ≤ length book.now }
        ensures { in_layout (num book.now 0) result ≡ sizes_of book.now }
    {
        Sizes {
            n: u16_at(book, N_OFFSET),
            l: u16_at(book, L_OFFSET),
            s: u16_at(book, S_OFFSET),
            j: u16_at(book, J_OFFSET),
        }
    }

    pub fn in_range(self) -> bool
        ensures { result ≡ sizes_ok (in_layout current self) }
    {
        from_one(self.n, MAX_BLOCKS as u16)
            & from_one(self.l, MAX_LBNS as u16)
            & from_one(self.s, MAX_SLOTS)
            & from_one(self.j, MAX_RECORDS)
    }

    // The length of a book of these sizes in this layout.
    pub fn size_as(self, layout: u16) -> usize
        ensures { result ≡ book_size (in_layout layout self) }
    {
        ENTRIES_FROM
            + entries_size(layout, self.n)
            + VOLUMES * (self.l as usize * 2)
            + self.s as usize * SLOT_SIZE
            + self.j as usize * REC_SIZE
    }

    // In today's layout.
    pub fn size(self) -> usize
        ensures { result ≡ book_size (in_layout current self) }
    {
        self.size_as(LAYOUT)
    }
}

fn from_one(x: u16, high: u16) -> bool
    ensures { result ≡ between 1 high x }
{
    (1 <= x) & (x <= high)
}

// The bytes of n entries in this layout.
pub fn entries_size(layout: u16, n: u16) -> usize
    ensures { (result ≡ n * entry_size layout) × (result ≤ n * 21) }
{
    if layout == NARROW_LAYOUT {
        return n as usize * NARROW_ENTRY_SIZE;
    }
    n as usize * ENTRY_SIZE
}
