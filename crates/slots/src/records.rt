// Used records in form, in one pass over their section, slot by slot.
ghost use Rattle.std.specs.Prelude.{◌+◌, ◌*◌, ◌≤◌, ◌<◌, ◌≡◌, length};
ghost use Rattle.words.specs.Numbers.{num};
ghost use Rattle.book.specs.Layout.{n_offset, l_offset, rec_size, rec_of, sizes_of};
ghost use Rattle.slots.specs.Records.{RecordsIn, after_in, rec_here, records_at, records_left};

use super::journal::RETIRE;
use fields::offsets::{REC_SIZE, SLOT_SIZE};
use sections::blocks::pbn_ok;
use words::{UNMAPPED, u16_at};

// An after: unmapped in a retire slot, and below N in any other.
fn after_ok(after: u16, retire: bool, n: u16) -> bool
    ensures { result ≡ after_in retire n after }
{
    if retire {
        return after == UNMAPPED;
    }
    after < n
}

fn rec_ok(b: &[u8], at: usize, retire: bool, n: u16, l: u16) -> bool
    requires rec_size_in_bounds { at + rec_size ≤ length b.now }
    requires n_value { (n ≡ num b.now n_offset) × (l ≡ num b.now l_offset) }
    ensures { result ≡ rec_here (sizes_of b.now) retire (rec_of b.now at) }
{
    (u16_at(b, at) < l) & pbn_ok(u16_at(b, at + 2), n) & after_ok(u16_at(b, at + 4), retire, n)
}

// The records of one slot, from an offset. It never leaves early, as `zeros`.
fn slot_records_ok(b: &[u8], from: usize, number: usize, retire: bool, n: u16, l: u16) -> bool
    requires rec_size_in_bounds { from + number * rec_size ≤ length b.now }
    requires n_value { (n ≡ num b.now n_offset) × (l ≡ num b.now l_offset) }
    ensures { result ≡ records_at b.now retire from number }
{
    let mut good = true;
    for k in 0..number {
        good = good & rec_ok(b, from + k * REC_SIZE, retire, n, l);
    }
    good
}

// The slots were found in form, so that their records follow each other up to the last used one.
pub fn used_records_ok(b: &[u8], slots: usize, used: usize, from: usize, n: u16, l: u16) -> bool
    requires { RecordsIn b.now slots used from n l }
    ensures { result ≡ records_left b.now 0 0 }
{
    let mut good = true;
    let mut next: usize = 0;
    for q in 0..used {
        let at = slots + q * SLOT_SIZE;
        let number = u16_at(b, at + 6) as usize;
        let retire = b[at + 1] == RETIRE;
        good = good & slot_records_ok(b, from + next * REC_SIZE, number, retire, n, l);
        next = next + number;
    }
    good
}
