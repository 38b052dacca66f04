// Steps 1 and 2 of a backup: the block with a fingerprint, and the next free block.
ghost use Rattle.std.specs.Prelude.{◌≡◌, ◌+◌, ◌*◌, ◌≤◌, ◌<◌, length};
ghost use Rattle.words.specs.Blocks.{print_size};
ghost use Rattle.words.specs.Sections.{part};
ghost use Rattle.book.specs.Book.{is_free};
ghost use Rattle.book.specs.Layout.{told, Holds};
ghost use Rattle.model.specs.Backup.{find_held, find_free};
ghost use Rattle.finder.specs.Answers.{found_of};
ghost use Rattle.finder.specs.Indexed.{Indexed};
ghost use Rattle.placer.specs.Search.{place_in};

use entries::entry;
use fields::header;
use finder::Index;
use words::{PBN, PRINT_SIZE};

// The lowest held block with fingerprint i of the fingerprints.
pub fn find_held(book: &[u8], index: &Index, prints: &[u8], i: usize) -> Option<PBN>
    requires holds { Holds book.now }
    requires indexed { Indexed (told book).entries index.now.heads index.now.nexts }
    requires print_size_in_bounds { i * print_size + print_size ≤ length prints.now }
    ensures { result ≡ found_of
        (find_held (told book.entry).entries (part prints.now (i * print_size) print_size)) }
{
    let from = i * PRINT_SIZE;
    let to = from + PRINT_SIZE;
    index.find(book, &prints[from..to])
}

// The first free block from one number up to another.
fn first_free(book: &[u8], from: u16, to: u16) -> Option<PBN>
    requires holds { Holds book.now }
    requires from_le_to { (from ≤ to) × (to ≤ (told book).sizes.n) }
    ensures { result ≡ found_of (place_in is_free (told book.entry).entries from to) }
{
    for p in from..to {
        if !entry::is_held(book, PBN(p)) {
            return Some(PBN(p));
        }
    }
    None
}

// The first free block from the cursor up, going round.
pub fn find_free(book: &[u8]) -> Option<PBN>
    requires holds { Holds book.now }
    requires book_bound { (told book).cursor < (told book).sizes.n }
    ensures { result ≡ found_of (find_free (told book.entry).entries (told book.entry).cursor) }
{
    let cursor = header::cursor(book);
    let n = header::blocks(book);
    first_free(book, cursor, n).or_else(|| first_free(book, 0, cursor))
}
