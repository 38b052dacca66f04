// A block becomes held, in the book and in its index.
ghost use Rattle.std.specs.Prelude.{◌≡◌, false, ◌<◌, length};
ghost use Rattle.words.specs.Blocks.{print_size};
ghost use Rattle.book.specs.Book.{entry_at};
ghost use Rattle.book.specs.Layout.{book_of, Holds, Is};
ghost use Rattle.book.specs.Next.{held_as, with_entry};
ghost use Rattle.finder.specs.Indexed.{Indexed};

use entries::entry;
use finder::Index;
use finder::bucket::bucket_of;
use words::PBN;

// A free block becomes held with this fingerprint; its count and expiry stay. It goes after the last block of its
// bucket below it, so that a lookup still finds the lowest.
pub fn hold(book: &mut [u8], index: &mut Index, p: PBN, print: &[u8])
    requires holds { Holds book.old }
    requires p_bound { (p.0 < (book_of book.old).sizes.n) × ((entry_at (book_of book.old).entries p.0).held ≡ false) }
    requires print_len { length print.now ≡ print_size }
    requires indexed { Indexed (book_of book.old).entries index.old.heads index.old.nexts }
    ensures is { Is book.new (with_entry (held_as print.now) p.0 (book_of book.old)) }
    ensures indexed_2 { Indexed (book_of book.new).entries index.new.heads index.new.nexts }
{
    entry::hold(book, p, print);
    let at = p.0 as usize;
    let home = bucket_of(print);
    let first = index.heads[home];
    if p.0 < first {
        index.nexts[at] = first;
        index.heads[home] = p.0;
        return;
    }
    let mut q = first as usize;
    let mut next = index.nexts[q];
    while next < p.0 {
        q = next as usize;
        next = index.nexts[q];
    }
    index.nexts[at] = next;
    index.nexts[q] = p.0;
}
