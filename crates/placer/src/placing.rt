// Steps 1 and 2 of a change: the block that it goes to, found or taken.
ghost use Rattle.std.specs.Prelude.{◌≡◌, false, ◌+◌, ◌<◌, length, get_or, set};
ghost use Rattle.words.specs.Lists.{same};
ghost use Rattle.runs.specs.Changes.{change_at};
ghost use Rattle.book.specs.Book.{entry_at};
ghost use Rattle.book.specs.Layout.{book_of, told, Holds, Is};
ghost use Rattle.model.specs.Pool.{pool_size};
ghost use Rattle.finder.specs.Indexed.{Indexed};
ghost use Rattle.placer.specs.Working.{held_block, Job, Standing};
ghost use Rattle.placer.specs.Placing.{taken_book, PlacedBy};
ghost use Rattle.words.specs.Lent.{lent};

use super::find::{find_free, find_held};
use entries::entry;
use fields::header;
use finder::Index;
use index::hold;
use list::ChangeList;
use words::limits::Table;
use words::refusals::Refusal;
use words::{BLOCK_SIZE, PBN, same_bytes};

// What a backup counts: blocks taken, and entries touched.
#[derive(Clone, Copy)]
pub struct Tally {
    pub taken: u16,
    pub touched: u16,
}

// Whether a held block has the bytes of change i. The old book tells where its bytes stand.
fn same_block(book: &[u8], pool: &[u8], list: ChangeList, taker: &Table, p: PBN, i: usize) -> bool
    requires holds { Holds book.now }
    requires change { i < list.shape.changes }
    requires p_bound { (p.0 < (told book).sizes.n) × (length pool.now ≡ pool_size (told book).sizes.n) }
    requires p_bound_2 { (entry_at (told book).entries p.0).held ≡ false → get_or taker.now p.0 0 < list.shape.changes }
    ensures { result ≡ same
        (held_block (told book.entry).entries taker.now list.entry.bytes.now pool.now p.0)
        (change_at list.entry.bytes.now i).block }
{
    let block = list.block_of(i);
    let at = p.0 as usize;
    if entry::is_held(book, p) {
        let from = at * BLOCK_SIZE;
        let to = from + BLOCK_SIZE;
        return same_bytes(&pool[from..to], block);
    }
    same_bytes(list.block_of(taker[at] as usize), block)
}

// A free block becomes held with the fingerprint of change i, and the cursor goes past it.
fn take_block(
    work: &mut [u8],
    list: ChangeList,
    taker: &mut Table,
    index: &mut Index,
    p: PBN,
    i: usize,
)
    requires holds { Holds work.old }
    requires change { i < list.shape.changes }
    requires p_bound { (p.0 < (book_of work.old).sizes.n) × ((entry_at (book_of work.old).entries p.0).held ≡ false) }
    requires indexed { Indexed (book_of work.old).entries index.old.heads index.old.nexts }
    ensures is { Is work.new
        (taken_book (change_at list.entry.bytes.now i).print p.0 (book_of work.old)) }
    ensures taker_after { taker.new ≡ set taker.old p.0 i }
    ensures indexed_2 { Indexed (book_of work.new).entries index.new.heads index.new.nexts }
{
    hold(work, index, p, list.print_of(i));
    let n = header::blocks(work);
    header::set_cursor(work, (p.0 + 1) % n);
    let at = p.0 as usize;
    taker[at] = i as u16;
}

// The block of change i, with the working copy as it is then, and what is counted then.
pub fn place(
    book: &[u8],
    pool: &[u8],
    work: &mut [u8],
    list: ChangeList,
    taker: &mut Table,
    index: &mut Index,
    i: usize,
    t: Tally,
) -> Result<(PBN, Tally), Refusal>
    requires holds { Holds book.now × Holds work.old }
    requires job { Job (told book) pool.now list × (i < list.shape.changes) }
    requires standing { Standing (told book) (book_of work.old) taker.old t i i }
    requires indexed { Indexed (book_of work.old).entries index.old.heads index.old.nexts }
    ensures placed_by { PlacedBy book pool (lent work) list.entry.bytes.now (lent taker) i t result }
    ensures indexed_2 { Indexed (book_of work.new).entries index.new.heads index.new.nexts }
{
    let Some(q) = find_held(work, index, list.prints(), i) else {
        let Some(p) = find_free(work) else {
            return Err(Refusal::NoBlock);
        };
        take_block(work, list, taker, index, p, i);
        let taken = t.taken + 1;
        let touched = t.touched;
        return Ok((p, Tally { taken, touched }));
    };
    if !same_block(book, pool, list, taker, q, i) {
        return Err(Refusal::OtherBytes);
    }
    Ok((q, t))
}
