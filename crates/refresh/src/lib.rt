// Every expiry of a book worked out afresh from its journal (document 02, K4), whatever it was before.

#![tactic(auto)]

ghost use Rattle.std.specs.Prelude.{◌<◌};
ghost use Rattle.book.specs.FormFacts.{BookParts};
ghost use Rattle.book.specs.Layout.{book_of, Holds, Is};
ghost use Rattle.model.specs.Convert.{refreshed};
ghost use Rattle.refresh.specs.Expiring.{with_expiry, with_expiries};

use due::expiries::gather;
use entries::entry::set_expiry;
use fields::header::blocks;
use words::PBN;
use words::limits::{MAX_BLOCKS, Table};

// The block's expiry becomes its number in the table, whatever it was.
fn put_expiry(book: &mut [u8], expiries: &Table, p: PBN)
    requires holds { Holds book.old }
    requires p_bound { p.0 < (book_of book.old).sizes.n }
    ensures { Is book.new (with_expiry expiries.now p.0 (book_of book.old)) }
{
    let until = expiries[p.0 as usize];
    set_expiry(book, p, until);
}

fn put_expiries(book: &mut [u8], expiries: &Table)
    requires { Holds book.old }
    ensures { Is book.new (with_expiries expiries.now (book_of book.old)) }
{
    let n = blocks(book);
    for p in 0..n {
        put_expiry(book, expiries, PBN(p));
    }
}

pub fn refresh(book: &mut [u8])
    requires { Holds book.old × BookParts (book_of book.old) }
    ensures { Is book.new (refreshed (book_of book.old)) }
{
    let mut expiries = [0u16; MAX_BLOCKS];
    gather(book, &mut expiries);
    put_expiries(book, &expiries);
}
