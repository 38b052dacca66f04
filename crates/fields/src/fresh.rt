// A fresh book, laid over any old bytes in one pass.
ghost use Rattle.std.specs.Prelude.{◌≡◌, [], ◌∷◌, ◌++◌, ◌+◌, ◌≤◌, length, replicate};
ghost use Rattle.std.proofs.lemmas.List.Edits.{sets};
ghost use Rattle.words.specs.Numbers.{two};
ghost use Rattle.words.specs.Sections.{flat};
ghost use Rattle.book.specs.Layout.{current, header_size, book_size, Is};
ghost use Rattle.book.specs.Next.{fresh};
ghost use Rattle.book.specs.FormFacts.{Bounds};
ghost use Rattle.fields.specs.InLayout.{in_layout};

use super::header::{L_OFFSET, LAYOUT, N_OFFSET};
use super::offsets::{ENTRIES_FROM, ENTRY_SIZE, REC_SIZE, SLOT_SIZE, VOLUMES};
use super::sizes::Sizes;
use words::{fill, put_three, put_u16};

// Zeros, then unmapped cells, which are 255 in both bytes, then zeros.
fn blank(b: &mut [u8], low: usize, cells: usize, high: usize)
    requires { length b.old ≡ low + (cells + high) }
    ensures { b.new ≡ replicate low 0 ++ (replicate cells 255 ++ replicate high 0) }
{
    fill(b, 0, low, 0);
    fill(b, low, cells, 255);
    fill(b, low + cells, high, 0);
}

// The layout number and the sizes.
fn put_sizes(b: &mut [u8], sizes: Sizes)
    requires { header_size ≤ length b.old }
    ensures { b.new ≡ sets b.old 0 (flat two (current ∷ sizes.n ∷ sizes.l ∷ sizes.s ∷ sizes.j ∷ [])) }
{
    put_u16(b, 0, LAYOUT);
    put_u16(b, N_OFFSET, sizes.n);
    put_three(b, L_OFFSET, sizes.l, sizes.s, sizes.j);
}

// All zero but layout and sizes, maps unmapped.
pub fn format(book: &mut [u8], sizes: Sizes)
    requires bounds { Bounds (in_layout current sizes) }
    requires book_len { length book.old ≡ book_size (in_layout current sizes) }
    ensures { Is book.new (fresh (in_layout current sizes)) }
{
    let low = ENTRIES_FROM + (sizes.n as usize) * ENTRY_SIZE;
    let cells = VOLUMES * ((sizes.l as usize) * 2);
    let high = (sizes.s as usize) * SLOT_SIZE + (sizes.j as usize) * REC_SIZE;
    blank(book, low, cells, high);
    put_sizes(book, sizes);
}
