// A book's bytes in another layout: its counts in the other width, and all else as it stands.

#![tactic(auto)]

ghost use Rattle.std.specs.Prelude.{◌≡◌, ◌++◌, true, ◌+◌, ◌≤◌, ◌<◌, length};
ghost use Rattle.std.proofs.lemmas.List.Edits.{sets};
ghost use Rattle.words.specs.Laying.{Stored};
ghost use Rattle.words.specs.Lists.{all};
ghost use Rattle.words.specs.Sections.{flat};
ghost use Rattle.book.specs.FormFacts.{FormFactsAs};
ghost use Rattle.book.specs.Layout.{count_size, entry_size, entries_from, book_size};
ghost use Rattle.book.specs.Layout.{count_bytes, entry_bytes, bytes, count_in, told};
ghost use Rattle.book.specs.Next.{sizes_in, with_layout};
ghost use Rattle.model.specs.Convert.{is_narrow};

use fields::header::{N_OFFSET, NARROW_LAYOUT};
use fields::offsets::{ENTRIES_FROM, ENTRY_SIZE, NARROW_ENTRY_SIZE};
use fields::sizes::entries_size;
use words::{put_bytes, put_u16, u16_at};

// State, expiry and fingerprint, which follow the count.
const REST_SIZE: usize = 19;

// The bytes of a count in this layout.
fn count_size(layout: u16) -> usize
    ensures { (result ≡ count_size layout) × (result ≤ 2) }
{
    if layout == NARROW_LAYOUT {
        return 1;
    }
    2
}

// The count that stands at `at` in this layout.
fn count_in(book: &[u8], layout: u16, at: usize) -> u16
    requires { at + 1 < length book.now }
    ensures { result ≡ count_in layout book.now at }
{
    if layout == NARROW_LAYOUT {
        return u16::from(book[at]);
    }
    u16_at(book, at)
}

// An entry in this layout at `at`, of which `rest` follows the count. It answers the offset past it.
fn put_entry(count: u16, rest: &[u8], layout: u16, out: &mut [u8], at: usize) -> usize
    requires count_bound { (layout ≡ 1 → count < 256) × (length rest.now ≡ 19) }
    requires layout_in_bounds { at + entry_size layout ≤ length out.old }
    ensures { Stored out.old at (count_bytes layout count ++ rest.now) out.new result }
{
    if layout == NARROW_LAYOUT {
        out[at] = count as u8;
        put_bytes(out, at + 1, rest);
        return at + NARROW_ENTRY_SIZE;
    }
    put_u16(out, at, count);
    put_bytes(out, at + 2, rest);
    at + ENTRY_SIZE
}

// All entries, from where they start. It answers the offset past them.
fn put_entries(book: &[u8], from: u16, to: u16, out: &mut [u8]) -> usize
    requires form_facts_as { FormFactsAs from book.now }
    requires book_value { to ≡ 1 → all is_narrow (told book).entries ≡ true }
    requires book_in_bounds { entries_from + length (flat (entry_bytes to) (told book).entries) ≤ length out.old }
    ensures { Stored out.old entries_from (flat (entry_bytes to) (told book.entry).entries)
        out.new result }
{
    let n = u16_at(book, N_OFFSET);
    let width = count_size(from);
    let mut taken = ENTRIES_FROM;
    let mut at = ENTRIES_FROM;
    for _ in 0..n {
        let count = count_in(book, from, taken);
        let rest = taken + width;
        let end = rest + REST_SIZE;
        at = put_entry(count, &book[rest..end], to, out, at);
        taken = end;
    }
    at
}

// The book in layout `to`, at the front of the output.
pub fn rewrite(book: &[u8], from: u16, to: u16, out: &mut [u8])
    requires form_facts_as { FormFactsAs from book.now }
    requires book_value { to ≡ 1 → all is_narrow (told book).entries ≡ true }
    requires book_in_bounds { book_size (sizes_in to (told book).sizes) ≤ length out.old }
    ensures { out.new ≡ sets out.old 0 (bytes (with_layout to (told book.entry))) }
{
    let n = u16_at(book, N_OFFSET);
    let rest = ENTRIES_FROM + entries_size(from, n);
    let end = book.len();
    put_u16(out, 0, to);
    put_bytes(out, 2, &book[2..ENTRIES_FROM]);
    let at = put_entries(book, from, to, out);
    put_bytes(out, at, &book[rest..end]);
}
