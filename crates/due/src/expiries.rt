// An expiry for each block of the pool: the last day for which some backup keeps it.
ghost use Rattle.std.specs.Prelude.{◌+◌, ◌<◌, ◌≤◌, length};
ghost use Rattle.std.proofs.Math.Seq.{slice};
ghost use Rattle.book.specs.FormFacts.{BookParts};
ghost use Rattle.book.specs.Layout.{told, Holds};
ghost use Rattle.model.specs.Audit.{until_in};
ghost use Rattle.model.specs.Journal.{journal};
ghost use Rattle.model.specs.JournalAt.{backup_at};
ghost use Rattle.due.specs.Expiries.{Raised, until_one, until_each};
ghost use Rattle.due.specs.Lasts.{LastsAre, due_in};

use super::lasts::{Lasts, due_day};
use fields::header::used_slots;
use fields::offsets::VOLUMES;
use journal::record::record_at;
use journal::slot::slot_at;
use words::PBN;
use words::limits::{MAX_BLOCKS, Table};

// The block's expiry becomes the larger of itself and `until`; unmapped has none.
pub fn raise(expiries: &mut Table, p: PBN, until: u16)
    ensures { Raised expiries.old (until_one until p.0) expiries.new }
{
    let at = p.0 as usize;
    if at >= MAX_BLOCKS {
        return;
    }
    if until <= expiries[at] {
        return;
    }
    expiries[at] = until;
}

// The befores of the records of one backup, from one up to another.
fn raise_befores(book: &[u8], expiries: &mut Table, until: u16, from: u16, end: u16)
    requires holds { Holds book.now }
    requires from_le_end { (from ≤ end) × (end ≤ length (told book).records) }
    ensures { Raised expiries.old (until_each until (slice from end (told book.entry).records))
        expiries.new }
{
    for q in from..end {
        let change = record_at(book, q);
        raise(expiries, change.before, until);
    }
}

// The befores of the backup of slot q, whose day is then its volume's last one.
fn gather_slot(book: &[u8], expiries: &mut Table, lasts: &mut Lasts, q: u16)
    requires holds { Holds book.now × BookParts (told book) }
    requires q_in_bounds { (q < length (told book).slots) × LastsAre (told book) q lasts.old }
    ensures raised { Raised expiries.old
        (until_each (due_in (told book.entry) (backup_at (told book.entry) q))
        (backup_at (told book.entry) q).records) expiries.new }
    ensures lasts_are { LastsAre (told book.entry) (q + 1) lasts.new }
{
    let slot = slot_at(book, q);
    let until = due_day(book, lasts, q);
    let end = slot.first + slot.number;
    raise_befores(book, expiries, until, slot.first, end);
}

// The befores of the whole journal. The book has counts of two bytes, and may be of an older layout.
pub fn gather(book: &[u8], expiries: &mut Table)
    requires { Holds book.now × BookParts (told book) }
    ensures { Raised expiries.old
        (λ p. until_in (told book.entry) p (journal (told book.entry))) expiries.new }
{
    let mut lasts = [0u16; VOLUMES];
    let used = used_slots(book);
    for q in 0..used {
        gather_slot(book, expiries, &mut lasts, q);
    }
}
