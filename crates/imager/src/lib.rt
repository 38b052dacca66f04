// A backup's image, whole: the current map, and then the records of the volume's later backups taken back, the last one
// first. One pass gives the block at every LBN.

#![tactic(auto)]

ghost use Rattle.std.specs.Prelude.{◌<◌, ◌≤◌, length};
ghost use Rattle.std.proofs.Math.Seq.{slice};
ghost use Rattle.book.specs.Book.{volumes};
ghost use Rattle.book.specs.Layout.{told, Holds};
ghost use Rattle.book.specs.FormFacts.{FormFacts};
ghost use Rattle.model.specs.Read.{records_of};
ghost use Rattle.model.specs.JournalAt.{own_at};
ghost use Rattle.imager.specs.Imaging.{Imaged, Undone};

use fields::{header, map};
use journal::{record, slot};
use words::LBN;
use words::limits::MAX_LBNS;

// A block number for each LBN, UNMAPPED for none.
pub type Image = [u16; MAX_LBNS];

// The volume's current map: nothing is taken back yet.
fn current_map(book: &[u8], v: u16, image: &mut Image)
    requires holds { Holds book.now }
    requires v_lt_volumes { v < volumes }
    ensures { Imaged (told book.entry) v (length (told book.entry).slots) image.new }
{
    let cells = header::cells(book);
    for l in 0..cells {
        let p = map::cell(book, v, LBN(l));
        image[l as usize] = p.0;
    }
}

// The records from `first` up to `end`, taken back from the last to the first.
fn undo_records(book: &[u8], first: u16, end: u16, image: &mut Image)
    requires form_facts { FormFacts book.now }
    requires first_le_end { (first ≤ end) × (end ≤ length (told book).records) }
    ensures { Undone (told book.entry) (slice first end (told book.entry).records) image.old
        image.new }
{
    for q in (first..end).rev() {
        let record = record::record_at(book, q);
        image[record.lbn.0 as usize] = record.before.0;
    }
}

// The records of slot q, where it is the volume's.
fn undo_slot(book: &[u8], v: u16, q: u16, image: &mut Image)
    requires form_facts { FormFacts book.now }
    requires q_in_bounds { q < length (told book).slots }
    ensures { Undone (told book.entry) (records_of (own_at (told book.entry) v q)) image.old
        image.new }
{
    let slot = slot::slot_at(book, q);
    let volume = slot.volume;
    if volume != v {
        return;
    }
    let end = slot.first + slot.number;
    undo_records(book, slot.first, end, image);
}

// What the volume had before its backups in the slots from `at` on.
pub fn image_of(book: &[u8], v: u16, at: u16, image: &mut Image)
    requires form_facts { FormFacts book.now }
    requires v_lt_volumes { v < volumes }
    ensures { Imaged (told book.entry) v at image.new }
{
    current_map(book, v, image);
    let used = header::used_slots(book);
    for q in (at..used).rev() {
        undo_slot(book, v, q, image);
    }
}
