// Pass 2 of a backup: the blocks that its changes took are written to the pool. A block that the old book holds is
// never written.
ghost use Rattle.std.specs.Prelude.{◌≡◌, true, false, ◌<◌, length, get_or};
ghost use Rattle.book.specs.Book.{entry_at};
ghost use Rattle.book.specs.Layout.{told, Holds};
ghost use Rattle.model.specs.Pool.{pool_size};
ghost use Rattle.placer.specs.Working.{pool_now, Storable};
ghost use Rattle.intake.specs.Storing.{stored_block};

use entries::entry;
use fields::header;
use list::ChangeList;
use words::limits::Table;
use words::{BLOCK_SIZE, PBN, put_bytes};

// The copying leaf: dst becomes src.
pub fn copy(dst: &mut [u8], src: &[u8])
    requires { length dst.old ≡ length src.now }
    ensures { dst.new ≡ src.now }
{
    put_bytes(dst, 0, src);
}

// Block p, where it was free and is held now.
fn store_block(book: &[u8], work: &[u8], pool: &mut [u8], list: ChangeList, taker: &Table, p: PBN)
    requires holds { Holds book.now × Holds work.now }
    requires p_bound { (p.0 < (told book).sizes.n) × (p.0 < (told work).sizes.n)
        × (length pool.old ≡ pool_size (told book).sizes.n) }
    requires p_bound_2 { (entry_at (told book).entries p.0).held ≡ false → (entry_at (told work).entries p.0).held ≡ true
        → get_or taker.now p.0 0 < list.shape.changes }
    ensures { pool.new ≡ stored_block (told book.entry).entries (told work.entry).entries
        taker.now list.entry.bytes.now pool.old p.0 }
{
    if entry::is_held(book, p) {
        return;
    }
    if !entry::is_held(work, p) {
        return;
    }
    let at = p.0 as usize;
    let from = at * BLOCK_SIZE;
    let to = from + BLOCK_SIZE;
    let i = taker[at] as usize;
    copy(&mut pool[from..to], list.block_of(i));
}

// All blocks, once no change can be refused any more.
pub fn store_all(book: &[u8], work: &[u8], pool: &mut [u8], list: ChangeList, taker: &Table)
    requires holds { Holds book.now × Holds work.now }
    requires storable { Storable (told book) (told work) pool.old list taker.now }
    ensures { pool.new ≡ pool_now (told book.entry).entries (told work.entry).entries
        taker.now list.entry.bytes.now pool.old }
{
    let n = header::blocks(book);
    for p in 0..n {
        store_block(book, work, pool, list, taker, PBN(p));
    }
}
