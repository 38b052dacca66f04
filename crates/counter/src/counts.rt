// What the entries of a book come to, in one pass.
ghost use Rattle.std.specs.Prelude.{◌≡◌};
ghost use Rattle.book.specs.Layout.{told, Holds};
ghost use Rattle.counter.specs.Counts.{counts_of, counted, Few};

use entries::entry;
use fields::header;
use words::PBN;

// How many blocks are held, free, and held with count 0, and the sum of the counts.
#[derive(Clone, Copy)]
pub struct Counts {
    pub held: u32,
    pub free: u32,
    pub waiting: u32,
    pub references: u32,
}

// One entry more.
fn count_entry(t: Counts, held: bool, count: u16) -> Counts
    requires { Few 4096 t }
    ensures { result ≡ counted t held count }
{
    let references = t.references + count as u32;
    if !held {
        return Counts {
            held: t.held,
            free: t.free + 1,
            waiting: t.waiting,
            references,
        };
    }
    if count == 0 {
        return Counts {
            held: t.held + 1,
            free: t.free,
            waiting: t.waiting + 1,
            references,
        };
    }
    Counts {
        held: t.held + 1,
        free: t.free,
        waiting: t.waiting,
        references,
    }
}

pub fn count_entries(book: &[u8]) -> Counts
    requires { Holds book.now }
    ensures { (result ≡ counts_of (told book.entry).entries) × Few 4096 result }
{
    let n = header::blocks(book);
    let mut t = Counts {
        held: 0,
        free: 0,
        waiting: 0,
        references: 0,
    };
    for p in 0..n {
        t = count_entry(t, entry::is_held(book, PBN(p)), entry::count(book, PBN(p)));
    }
    t
}
