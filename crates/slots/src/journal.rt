// Used slots in form, in one pass over their section.
ghost use Rattle.std.specs.Prelude.{◌+◌, ◌*◌, ◌≤◌, ◌≡◌, length};
ghost use Rattle.words.specs.Numbers.{num};
ghost use Rattle.book.specs.Layout.{day_offset, entries_from, slot_size};
ghost use Rattle.slots.specs.Days.{no_lasts, none_gone};
ghost use Rattle.slots.specs.Slots.{SlotsAt, slot_here, slots_left};

use fields::header::HEADER_SIZE;
use fields::offsets::{SLOT_SIZE, VOLUMES};
use words::u16_at;

// The first layout in which a slot may retire its volume.
const RETIRE_LAYOUT: u16 = 3;

// A retire slot's second byte.
pub const RETIRE: u8 = 1;

// The slot at `at`, after those passed: each volume's last day + 1, which volumes are retired, the last slot's day, and
// the record where it has to start.
fn slot_ok(
    b: &[u8],
    layout: u16,
    at: usize,
    today: u16,
    lasts: &[u16; VOLUMES],
    gone: &[bool; VOLUMES],
    prev: u16,
    next: usize,
) -> bool
    requires entries_from_in_bounds { (entries_from ≤ length b.now) × (at + slot_size ≤ length b.now) }
    requires layout_value { (layout ≡ num b.now 0) × (today ≡ num b.now day_offset) }
    ensures { result ≡ slot_here b.now at lasts.now gone.now prev next }
{
    let v = usize::from(b[at]);
    if v >= VOLUMES {
        return false;
    }
    let second = b[at + 1];
    let day = u16_at(b, at + 2);
    let enrolled = u16_at(b, HEADER_SIZE + v * 2) != 0;
    let first = u16_at(b, at + 4) as usize;
    (second <= RETIRE)
        & (enrolled & (day <= today) & ((layout >= RETIRE_LAYOUT) | (second != RETIRE)))
        & ((prev <= day) & ((lasts[v] <= day) & !gone[v]))
        & (first == next)
}

pub fn used_slots_ok(
    b: &[u8],
    layout: u16,
    from: usize,
    used: usize,
    records: usize,
    today: u16,
) -> bool
    requires { SlotsAt b.now layout from used records today }
    ensures { result ≡ slots_left b.now 0 no_lasts none_gone 0 0 }
{
    let mut lasts = [0u16; VOLUMES];
    let mut gone = [false; VOLUMES];
    let mut prev: u16 = 0;
    let mut next: usize = 0;
    for q in 0..used {
        let at = from + q * SLOT_SIZE;
        if !slot_ok(b, layout, at, today, &lasts, &gone, prev, next) {
            return false;
        }
        let v = usize::from(b[at]);
        prev = u16_at(b, at + 2);
        lasts[v] = prev + 1;
        gone[v] = b[at + 1] == RETIRE;
        next = next + u16_at(b, at + 6) as usize;
    }
    next == records
}
