// The lookup: the lowest held block with a fingerprint.
ghost use Rattle.std.specs.Prelude.{◌≡◌, length, replicate};
ghost use Rattle.words.specs.Blocks.{print_size};
ghost use Rattle.book.specs.Layout.{told, Holds};
ghost use Rattle.model.specs.Backup.{find_held};
ghost use Rattle.finder.specs.Answers.{found_of};
ghost use Rattle.finder.specs.First.{first_from};
ghost use Rattle.finder.specs.Bucket.{table_size, bucket_of, has_print};
ghost use Rattle.finder.specs.Finding.{Chain};
ghost use Rattle.finder.specs.Indexed.{Indexed};

use super::bucket::bucket_of;
use super::comparing::agreeing;
use entries::entry;
use fields::header;
use words::limits::{MAX_BLOCKS, Table};
use words::{PBN, PRINT_SIZE};

// The index: `heads` has the lowest held block of each bucket, and `nexts` the next one up of a held block's own bucket.
// Where there is none, both have N.
#[derive(Drop)]
pub struct Index {
    pub heads: Table,
    pub nexts: Table,
}

impl Index {
    // Blank tables, which `index::build` fills.
    pub fn new() -> Self
        ensures { (result.heads ≡ replicate table_size 0) × (result.nexts ≡ replicate table_size 0) }
    {
        Index {
            heads: [0; MAX_BLOCKS],
            nexts: [0; MAX_BLOCKS],
        }
    }

    // The lowest block with the fingerprint from a block of its bucket on, or N.
    pub fn search(&self, book: &[u8], from: u16, print: &[u8]) -> u16
        requires holds { Holds book.now }
        requires print_len { length print.now ≡ print_size }
        requires chain { Chain (told book).entries (bucket_of print.now) self.now.nexts from }
        ensures { result ≡ first_from (has_print print.now) (told book.entry).entries from }
    {
        search(book, &self.nexts, from, print)
    }

    pub fn find(&self, book: &[u8], print: &[u8]) -> Option<PBN>
        requires holds { Holds book.now }
        requires indexed { Indexed (told book).entries self.now.heads self.now.nexts }
        requires print_len { length print.now ≡ print_size }
        ensures { result ≡ found_of (find_held (told book.entry).entries print.now) }
    {
        let q = self.search(book, self.heads[bucket_of(print)], print);
        if q < header::blocks(book) {
            return Some(PBN(q));
        }
        None
    }
}

// `Index::search` for a caller that has only the table `nexts`. Goes up through the bucket, whose blocks are all held.
pub fn search(book: &[u8], nexts: &Table, from: u16, print: &[u8]) -> u16
    requires holds { Holds book.now }
    requires print_len { length print.now ≡ print_size }
    requires chain { Chain (told book).entries (bucket_of print.now) nexts.now from }
    ensures { result ≡ first_from (has_print print.now) (told book.entry).entries from }
{
    let n = header::blocks(book);
    let mut q = from;
    while q < n {
        let own = entry::print_of(book, PBN(q));
        if agreeing(own, print) == PRINT_SIZE {
            return q;
        }
        q = nexts[q as usize];
    }
    q
}
