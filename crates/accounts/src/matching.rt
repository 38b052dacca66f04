// The entries, once. Each count and each expiry is what was gathered for the block.
ghost use Rattle.std.specs.Prelude.{◌<◌};
ghost use Rattle.book.specs.Layout.{told};
ghost use Rattle.book.specs.FormFacts.{FormFacts};
ghost use Rattle.accounts.specs.Passes.{MatchesEntry, MatchesEntries};

use entries::entry::{count, expiry};
use fields::header::blocks;
use words::PBN;
use words::limits::Table;

fn entry_matches(book: &[u8], counts: &Table, expiries: &Table, p: PBN) -> bool
    requires form_facts { FormFacts book.now }
    requires p_bound { p.0 < (told book).sizes.n }
    ensures { MatchesEntry book counts expiries p.0 result }
{
    let at = p.0 as usize;
    (count(book, p) == counts[at]) & (expiry(book, p) == expiries[at])
}

pub fn entries_match(book: &[u8], counts: &Table, expiries: &Table) -> bool
    requires { FormFacts book.now }
    ensures { MatchesEntries book counts expiries result }
{
    let n = blocks(book);
    let mut good = true;
    for p in 0..n {
        good = good & entry_matches(book, counts, expiries, PBN(p));
    }
    good
}
