// A backup's image: the block that it has at an LBN, by the slot where the volume's later backups start.
ghost use Rattle.std.specs.Prelude.{◌≡◌, ◌+◌, ◌≤◌, ◌<◌, length, take, drop};
ghost use Rattle.book.specs.Book.{volumes};
ghost use Rattle.book.specs.Layout.{told, Holds};
ghost use Rattle.book.specs.FormFacts.{FormFacts};
ghost use Rattle.model.specs.Read.{records_of};
ghost use Rattle.model.specs.JournalAt.{own_at, image_from};
ghost use Rattle.restorer.specs.Befores.{before_in, before_from};

use fields::{header, map};
use journal::{record, slot};
use words::{LBN, PBN};

// The before of the LBN's first record, among `number` records from `first` on. It may be unmapped.
fn first_before(book: &[u8], first: u16, number: u16, lbn: LBN) -> Option<PBN>
    requires holds { Holds book.now }
    requires number_in_bounds { first + number ≤ length (told book).records }
    ensures { result ≡ before_in lbn.0 (take number (drop first (told book.entry).records)) }
{
    for q in first..first + number {
        let record = record::record_at(book, q);
        if record.lbn.0 == lbn.0 {
            let before = record.before;
            return Some(before);
        }
    }
    None
}

// The same among the records of slot q, where it is the volume's.
fn slot_before(book: &[u8], q: u16, v: u16, lbn: LBN) -> Option<PBN>
    requires form_facts { FormFacts book.now }
    requires q_in_bounds { q < length (told book).slots }
    ensures { result ≡ before_in lbn.0 (records_of (own_at (told book.entry) v q)) }
{
    let slot = slot::slot_at(book, q);
    if slot.volume != v {
        return None;
    }
    first_before(book, slot.first, slot.number, lbn)
}

// The same among the records of the volume's backups in the slots from `at` on.
fn later_before(book: &[u8], v: u16, at: u16, lbn: LBN) -> Option<PBN>
    requires { FormFacts book.now }
    ensures { result ≡ before_from (told book.entry) v at lbn.0 }
{
    let used = header::used_slots(book);
    for q in at..used {
        let found = slot_before(book, q, v, lbn);
        if found.is_some() {
            return found;
        }
    }
    None
}

// The block at an LBN before the volume's backups in the slots from `at` on: the first before among them, else the
// current map.
pub fn image_at(book: &[u8], v: u16, at: u16, lbn: LBN) -> PBN
    requires form_facts { FormFacts book.now }
    requires v_lt_volumes { (v < volumes) × (lbn.0 < (told book).sizes.l) }
    ensures { result.0 ≡ image_from (told book.entry) v at lbn.0 }
{
    match later_before(book, v, at, lbn) {
        Some(before) => before,
        None => map::cell(book, v, lbn),
    }
}
