// The pool's blocks, 22 bytes each: whether it is held, count, expiry and fingerprint.
ghost use Rattle.std.specs.Prelude.{◌≡◌, ◌+◌, ◌≤◌, ◌<◌, length};
ghost use Rattle.std.proofs.lemmas.List.Edits.{sets};
ghost use Rattle.words.specs.Laying.{Stored};
ghost use Rattle.book.specs.Book.{entry_at};
ghost use Rattle.book.specs.Layout.{told, Holds};
ghost use Rattle.model.specs.Views.{block_row, blocks_of};
ghost use Rattle.rows.specs.Promises.{BlocksTold};
ghost use Rattle.words.specs.Lent.{lent};
ghost use Rattle.words.specs.Refusals.{refusal_number};

use entries::entry;
use fields::header;
use words::refusals::Refusal;
use words::{PBN, put_bytes, put_three};

const ROW_SIZE: usize = 22;

// Where the fingerprint stands within a row.
const PRINT: usize = 6;

// One row at `at`. It answers the offset past it.
fn put_block(book: &[u8], p: PBN, out: &mut [u8], at: usize) -> usize
    requires holds { Holds book.now }
    requires p_bound { (p.0 < (told book).sizes.n) × (at + 22 ≤ length out.old) }
    ensures { Stored out.old at (block_row (entry_at (told book.entry).entries p.0))
        out.new result }
{
    let held = entry::is_held(book, p) as u16;
    let count = entry::count(book, p);
    let expiry = entry::expiry(book, p);
    let print = entry::print_of(book, p);
    put_three(out, at, held, count, expiry);
    put_bytes(out, at + PRINT, print);
    at + ROW_SIZE
}

fn put_blocks(book: &[u8], out: &mut [u8])
    requires holds { Holds book.now }
    requires book_in_bounds { length (blocks_of (told book)) ≤ length out.old }
    ensures { out.new ≡ sets out.old 0 (blocks_of (told book.entry)) }
{
    let n = header::blocks(book);
    let mut at: usize = 0;
    for p in 0..n {
        at = put_block(book, PBN(p), out, at);
    }
}

pub fn blocks(book: &[u8], out: &mut [u8]) -> Result<(), Refusal>
    ensures { BlocksTold book (lent out) (refusal_number result) }
{
    form::check(book)?;
    if out.len() < header::blocks(book) as usize * ROW_SIZE {
        return Err(Refusal::ShortOutput);
    }
    put_blocks(book, out);
    Ok(())
}
