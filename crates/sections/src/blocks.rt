// Retentions, block entries and maps in form, each in one pass over its section.
ghost use Rattle.std.specs.Prelude.{◌+◌, ◌*◌, ◌≤◌, ◌<◌, ◌≡◌, ◌&&◌, length};
ghost use Rattle.book.specs.Layout.{current, entries_from, entry_offset, current_offset, entry_in};
ghost use Rattle.book.specs.Form.{state_ok, entry_ok, pbn_ok};
ghost use Rattle.sections.specs.Checks.{retentions_ok, rest_ok, entries_ok, maps_ok};

use super::zeros::zeros;
use fields::header;
use fields::header::{HEADER_SIZE, NARROW_LAYOUT};
use fields::offsets::{ENTRIES_FROM, ENTRY_SIZE, NARROW_ENTRY_SIZE, VOLUMES};
use words::limits::{MAX_EXPIRY, MAX_RETENTION};
use words::{UNMAPPED, u16_at};

pub fn retentions_ok(b: &[u8]) -> bool
    requires { entries_from ≤ length b.now }
    ensures { result ≡ retentions_ok b.now }
{
    let mut good = true;
    for v in 0..VOLUMES {
        good = good & (u16_at(b, HEADER_SIZE + v * 2) <= MAX_RETENTION);
    }
    good
}

// An entry with this count, whose other fields stand at `at`.
fn rest_ok(b: &[u8], count: u16, at: usize) -> bool
    requires { at + 19 ≤ length b.now }
    ensures { result ≡ rest_ok b.now count at }
{
    let state = b[at];
    if state > 1 {
        return false;
    }
    if u16_at(b, at + 1) > MAX_EXPIRY {
        return false;
    }
    if state == 1 {
        return true;
    }
    if count != 0 {
        return false;
    }
    zeros(b, at + 3, at + 19)
}

// Entry p of a book in this layout.
#[tactic(auto, using(crate::proofs::CheckLaws::entry_sizes))]
fn entry_ok<const LAYOUT: u16>(b: &[u8], p: usize) -> bool
    requires { entry_offset LAYOUT (p + 1) ≤ length b.now }
    ensures { result ≡ (state_ok LAYOUT b.now p && entry_ok (entry_in LAYOUT b.now (entry_offset LAYOUT p))) }
{
    if LAYOUT == NARROW_LAYOUT {
        let at = ENTRIES_FROM + p * NARROW_ENTRY_SIZE;
        return rest_ok(b, u16::from(b[at]), at + 1);
    }
    let at = ENTRIES_FROM + p * ENTRY_SIZE;
    rest_ok(b, u16_at(b, at), at + 2)
}

// The first n entries. Each layout has a loop of its own, in which an entry's size is a constant.
fn each_entry_ok<const LAYOUT: u16>(b: &[u8], n: usize) -> bool
    requires { entry_offset LAYOUT n ≤ length b.now }
    ensures { result ≡ entries_ok LAYOUT b.now n }
{
    for p in 0..n {
        if !entry_ok::<LAYOUT>(b, p) {
            return false;
        }
    }
    true
}

// n entries with counts of two bytes.
pub fn entries_ok(b: &[u8], n: usize) -> bool
    requires { current_offset n ≤ length b.now }
    ensures { result ≡ entries_ok current b.now n }
{
    each_entry_ok::<{ header::LAYOUT }>(b, n)
}

// n entries of layout 1, with counts of one byte.
pub fn narrow_entries_ok(b: &[u8], n: usize) -> bool
    requires { entries_from + n * 20 ≤ length b.now }
    ensures { result ≡ entries_ok 1 b.now n }
{
    each_entry_ok::<NARROW_LAYOUT>(b, n)
}

pub fn pbn_ok(p: u16, n: u16) -> bool
    ensures { result ≡ pbn_ok n p }
{
    (p < n) | (p == UNMAPPED)
}

// The PBNs of all maps, which stand one after the other. It never leaves early, as `zeros`.
pub fn maps_ok(b: &[u8], from: usize, cells: usize, n: u16) -> bool
    requires { from + cells * 2 ≤ length b.now }
    ensures { result ≡ maps_ok b.now from cells n }
{
    let mut good = true;
    for c in 0..cells {
        good = good & pbn_ok(u16_at(b, from + c * 2), n);
    }
    good
}
