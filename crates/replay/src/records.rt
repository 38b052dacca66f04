// Audit: the records, once. Each is replayed in a table of all cells and raises the expiry of its before. Where maps
// and counts are sound, no kept backup names a free block exactly when each backup that still reaches the day has, in
// the first record of each LBN, a before that is unmapped or held.
ghost use Rattle.std.specs.Prelude.{◌≡◌, ◌⊎◌, ℕ, ◌+◌, ◌≤◌, ◌<◌, length, get_or};
ghost use Rattle.words.specs.Blocks.{unmapped};
ghost use Rattle.book.specs.Book.{volumes};
ghost use Rattle.book.specs.Layout.{told};
ghost use Rattle.book.specs.FormFacts.{FormFacts};
ghost use Rattle.model.specs.Audit.{cell_sound};
ghost use Rattle.due.specs.Lasts.{LastsAre};
ghost use Rattle.replay.specs.Taking.{TakesRecord, TakesRecords, TakesSlot, TakesJournal};
ghost use Rattle.words.specs.Lent.{lent};

use super::notes::{Stamps, Tables, meet, replace};
use due::expiries::raise;
use due::lasts::{Lasts, due_day};
use entries::entry::is_held;
use fields::header;
use fields::header::used_slots;
use fields::offsets::VOLUMES;
use journal::record::record_at;
use journal::slot::slot_at;
use words::limits::MAX_LBNS;
use words::{PBN, UNMAPPED};

// What the records of a backup are taken with: the last day that keeps what they replace, whether that day is past, and
// the backup's stamp.
#[derive(Clone, Copy)]
pub struct Taking {
    pub volume: u16,
    pub until: u16,
    pub past: bool,
    pub stamp: u16,
}

fn unmapped_or_held(book: &[u8], p: PBN) -> bool
    requires form_facts { FormFacts book.now }
    requires fact { (p.0 < (told book).sizes.n) ⊎ (p.0 ≡ unmapped) }
    ensures { result ≡ cell_sound (told book.entry) p.0 }
{
    if p.0 == UNMAPPED {
        return true;
    }
    is_held(book, p)
}

fn take_record(book: &[u8], tables: &mut Tables, stamps: &mut Stamps, t: Taking, q: u16) -> bool
    requires form_facts { FormFacts book.now }
    requires volume_lt_volumes { (t.volume < volumes) × (q < length (told book).records) }
    ensures { TakesRecord book (lent tables) (lent stamps) t q result }
{
    let change = record_at(book, q);
    let same = replace(&mut tables.cells, t.volume, change);
    raise(&mut tables.expiries, change.before, t.until);
    let met = meet(stamps, change.lbn, t.stamp);
    let held = unmapped_or_held(book, change.before);
    same & (t.past | met | held)
}

// The records of one backup, from one up to another.
fn take_records(
    book: &[u8],
    tables: &mut Tables,
    stamps: &mut Stamps,
    t: Taking,
    from: u16,
    end: u16,
) -> bool
    requires form_facts { FormFacts book.now }
    requires volume_lt_volumes { (t.volume < volumes) × (from ≤ end) × (end ≤ length (told book).records) }
    ensures { TakesRecords book (lent tables) (lent stamps) t from end result }
{
    let mut good = true;
    for q in from..end {
        let taken = take_record(book, tables, stamps, t, q);
        good = good & taken;
    }
    good
}

// The backup of slot q, whose stamp is q + 1.
fn take_slot(
    book: &[u8],
    tables: &mut Tables,
    stamps: &mut Stamps,
    lasts: &mut Lasts,
    q: u16,
) -> bool
    requires form_facts { FormFacts book.now }
    requires q_in_bounds { (q < length (told book).slots) × LastsAre (told book) q lasts.old }
    requires stamps_low { (l : ℕ) → get_or stamps.old l 0 ≤ q }
    ensures takes_slot { TakesSlot book (lent tables) (lent stamps) q result }
    ensures lasts_are { LastsAre (told book.entry) (q + 1) lasts.new }
{
    let slot = slot_at(book, q);
    let volume = slot.volume;
    let until = due_day(book, lasts, q);
    let past = until < header::day(book);
    let stamp = q + 1;
    let end = slot.first + slot.number;
    let t = Taking {
        volume,
        until,
        past,
        stamp,
    };
    take_records(book, tables, stamps, t, slot.first, end)
}

// The whole journal, replayed in the cells and gathered in the expiries.
pub fn take_journal(book: &[u8], tables: &mut Tables) -> bool
    requires { FormFacts book.now }
    ensures { TakesJournal book (lent tables) result }
{
    let mut stamps = [0u16; MAX_LBNS];
    let mut lasts = [0u16; VOLUMES];
    let used = used_slots(book);
    let mut good = true;
    for q in 0..used {
        let taken = take_slot(book, tables, &mut stamps, &mut lasts, q);
        good = good & taken;
    }
    good
}
