// The index of a book: its held blocks linked one after the other, from the last down.
ghost use Rattle.std.specs.Prelude.{◌≡◌, ◌+◌, ◌<◌, get_or, set};
ghost use Rattle.book.specs.Layout.{told, Holds};
ghost use Rattle.finder.specs.Bucket.{table_size, apart};
ghost use Rattle.finder.specs.Indexed.{IndexedFrom, Indexed};

use entries::entry;
use fields::header;
use finder::Index;
use finder::bucket::bucket_of;
use words::PBN;
use words::limits::MAX_BLOCKS;

// No block is linked yet, whatever the tables had.
pub fn clear(book: &[u8], index: &mut Index)
    requires { Holds book.now }
    ensures { IndexedFrom (told book.entry).sizes.n (told book.entry).entries
        index.new.heads index.new.nexts }
{
    let n = header::blocks(book);
    index.heads = [n; MAX_BLOCKS];
    index.nexts = [n; MAX_BLOCKS];
}

// A block becomes the first of a bucket.
fn prepend(index: &mut Index, home: usize, p: PBN)
    requires { (home < table_size) × (p.0 < table_size) }
    ensures { (index.new.heads ≡ set index.old.heads home p.0)
        × (index.new.nexts ≡ set index.old.nexts p.0 (get_or index.old.heads home 0)) }
{
    let at = p.0 as usize;
    index.nexts[at] = index.heads[home];
    index.heads[home] = p.0;
}

// A held block comes before those above it.
fn link(book: &[u8], index: &mut Index, p: PBN)
    requires holds { Holds book.now }
    requires p_bound { p.0 < (told book).sizes.n }
    requires indexed_from { IndexedFrom (p.0 + 1) (told book).entries index.old.heads index.old.nexts }
    ensures { IndexedFrom p.0 (told book.entry).entries index.new.heads index.new.nexts }
{
    if !entry::is_held(book, p) {
        return;
    }
    let home = bucket_of(entry::print_of(book, p));
    prepend(index, home, p);
}

// .. which are first asked for its fingerprint. Whether none has it.
pub fn link_apart(book: &[u8], index: &mut Index, p: PBN) -> bool
    requires holds { Holds book.now }
    requires p_bound { p.0 < (told book).sizes.n }
    requires indexed_from { IndexedFrom (p.0 + 1) (told book).entries index.old.heads index.old.nexts }
    ensures value { result ≡ apart (told book.entry).entries p.0 }
    ensures indexed_from_2 { IndexedFrom p.0 (told book.entry).entries index.new.heads index.new.nexts }
{
    if !entry::is_held(book, p) {
        return true;
    }
    let print = entry::print_of(book, p);
    let home = bucket_of(print);
    let found = index.search(book, index.heads[home], print);
    prepend(index, home, p);
    found == header::blocks(book)
}

// The index of all held blocks.
pub fn build(book: &[u8], index: &mut Index)
    requires { Holds book.now }
    ensures { Indexed (told book.entry).entries index.new.heads index.new.nexts }
{
    clear(book, index);
    let n = header::blocks(book);
    for p in (0..n).rev() {
        link(book, index, PBN(p));
    }
}
