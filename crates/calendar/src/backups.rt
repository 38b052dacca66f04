// A volume's backups, 8 bytes each: day, number of records, until when it is kept, and whether it is kept now.
ghost use Rattle.std.specs.Prelude.{◌≡◌, ◌+◌, ◌≤◌, ◌<◌, length};
ghost use Rattle.std.proofs.lemmas.List.Edits.{sets};
ghost use Rattle.book.specs.Book.{volumes};
ghost use Rattle.book.specs.Layout.{told, Holds};
ghost use Rattle.book.specs.FormFacts.{FormFacts};
ghost use Rattle.words.specs.Laying.{Stored};
ghost use Rattle.model.specs.Views.{backups_of};
ghost use Rattle.calendar.specs.Promises.{BackupsGiven};
ghost use Rattle.calendar.specs.Own.{NextIs};
ghost use Rattle.calendar.specs.Row.{until_from, row_from};
ghost use Rattle.words.specs.Lent.{lent};

use fields::header;
use figures::enrolled;
use figures::volume::count_backups;
use journal::slot;
use keeping::is_kept;
use words::refusals::Refusal;
use words::{put_three, put_u16};

const ROW_SIZE: usize = 8;

// The last day of the newest backup, while the volume isn't retired.
const ALWAYS: u16 = 65535;

// The first slot from q on that is the volume's; where there is none, the answer is past the used slots.
fn next_own(book: &[u8], v: u16, q: u16) -> u16
    requires { Holds book.now }
    ensures { NextIs (told book.entry) v q result }
{
    let used = header::used_slots(book);
    for r in q..used {
        let slot = slot::slot_at(book, r);
        if slot.volume == v {
            return r;
        }
    }
    used.max(q)
}

// The last day on which a backup that was taken on day `taken` is kept: slot `at` is the volume's next, if any.
fn kept_until(book: &[u8], taken: u16, at: u16, days: u16) -> u16
    requires form_facts { FormFacts book.now }
    requires taken_bound { (taken ≤ 60000) × (days ≤ 5000) }
    ensures { result ≡ until_from (told book.entry) taken at days }
{
    if header::used_slots(book) <= at {
        return ALWAYS;
    }
    taken + days
}

// The row of the backup in slot q, where slot `next` is the volume's next, if any. A retire slot has no row. It answers
// the offset past the row.
fn put_row(book: &[u8], q: u16, next: u16, days: u16, out: &mut [u8], at: usize) -> usize
    requires form_facts { FormFacts book.now }
    requires q_in_bounds { (q < length (told book).slots) × (days ≤ 5000) }
    requires days_in_bounds { at + length (row_from (told book) q next days) ≤ length out.old }
    ensures { Stored out.old at (row_from (told book.entry) q next days) out.new result }
{
    let slot = slot::slot_at(book, q);
    if slot.retire {
        return at;
    }
    let until = kept_until(book, slot.day, next, days);
    let kept = is_kept(book, slot.day, next, days) as u16;
    put_three(out, at, slot.day, slot.number, until);
    put_u16(out, at + 6, kept);
    at + ROW_SIZE
}

// The rows of the volume's backups, to the front of the output.
fn put_rows(book: &[u8], v: u16, out: &mut [u8])
    requires form_facts { FormFacts book.now }
    requires v_lt_volumes { (v < volumes) × (length (backups_of (told book) v) ≤ length out.old) }
    ensures { out.new ≡ sets out.old 0 (backups_of (told book.entry) v) }
{
    let used = header::used_slots(book);
    let days = header::retention(book, v);
    let mut at = 0;
    let mut q = next_own(book, v, 0);
    while q < used {
        let next = next_own(book, v, q + 1);
        at = put_row(book, q, next, days, out, at);
        q = next;
    }
}

// Their rows, to the front of the output. It answers how many backups there are.
pub fn backups(book: &[u8], volume: u16, out: &mut [u8]) -> Result<u16, Refusal>
    ensures { BackupsGiven book volume (lent out) result }
{
    enrolled::check(book, volume)?;
    let n = count_backups(book, volume);
    if out.len() < (n as usize) * ROW_SIZE {
        return Err(Refusal::ShortOutput);
    }
    put_rows(book, volume, out);
    Ok(n)
}
