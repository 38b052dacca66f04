// Whether a book is in form (document 01, numbers 1 and 2), in one pass over each section.
ghost use Rattle.std.specs.Prelude.{◌+◌, ◌*◌, ◌≤◌, ◌<◌, ◌≡◌, true, length};
ghost use Rattle.book.specs.Layout.{header_size, entry_offset, slots_from, sizes_of};
ghost use Rattle.book.specs.Form.{layout_as, form_as, form_number};
ghost use Rattle.book.specs.FormFacts.{Laid};
ghost use Rattle.form.specs.Passes.{blocks_ok, slots_ok, journal_ok};
ghost use Rattle.words.specs.Refusals.{refusal_number};
ghost use Rattle.sections.specs.Checks.{head_ok, entries_ok, HeadIn};

use fields::header::{
    B_OFFSET, CURSOR_OFFSET, DAY_OFFSET, HEADER_SIZE, J_OFFSET, L_OFFSET, LAYOUT, N_OFFSET,
    NARROW_LAYOUT, S_OFFSET, U_OFFSET, ZERO_OFFSET,
};
use fields::offsets::{ENTRIES_FROM, REC_SIZE, SLOT_SIZE, VOLUMES};
use fields::sizes::{Sizes, entries_size};
use sections::blocks::{entries_ok, maps_ok, narrow_entries_ok, retentions_ok};
use sections::zeros::zeros;
use slots::journal::used_slots_ok;
use slots::records::used_records_ok;
use words::limits::MAX_DAY;
use words::refusals::Refusal;
use words::u16_at;

fn layout_ok(b: &[u8], layout: u16) -> bool
    ensures { result ≡ layout_as layout b.now }
{
    if b.len() < HEADER_SIZE {
        return false;
    }
    let sizes = Sizes::of(b);
    (u16_at(b, 0) == layout) & sizes.in_range() & (b.len() == sizes.size_as(layout))
}

// What the header holds beside the layout number and the sizes.
fn head_ok(b: &[u8]) -> bool
    requires { header_size ≤ length b.now }
    ensures { result ≡ head_ok b.now }
{
    let slots = u16_at(b, B_OFFSET) <= u16_at(b, S_OFFSET);
    let records = u16_at(b, U_OFFSET) <= u16_at(b, J_OFFSET);
    let day = u16_at(b, DAY_OFFSET) <= MAX_DAY;
    let cursor = u16_at(b, CURSOR_OFFSET) < u16_at(b, N_OFFSET);
    slots & records & day & cursor & (u16_at(b, ZERO_OFFSET) == 0)
}

// Block entries. Each width has a loop of its own, whose size of an entry is a constant.
fn layout_entries_ok(b: &[u8], layout: u16, n: u16) -> bool
    requires { entry_offset layout n ≤ length b.now }
    ensures { result ≡ entries_ok layout b.now n }
{
    if layout == NARROW_LAYOUT {
        return narrow_entries_ok(b, n as usize);
    }
    entries_ok(b, n as usize)
}

// Retentions, block entries and maps.
fn blocks_ok(b: &[u8], layout: u16) -> bool
    requires { Laid layout b.now }
    ensures { result ≡ blocks_ok b.now }
{
    let n = u16_at(b, N_OFFSET);
    let maps = ENTRIES_FROM + entries_size(layout, n);
    let cells = VOLUMES * (u16_at(b, L_OFFSET) as usize);
    retentions_ok(b) & layout_entries_ok(b, layout, n) & maps_ok(b, maps, cells, n)
}

fn slots_from(b: &[u8], layout: u16) -> usize
    requires { Laid layout b.now }
    ensures { result ≡ slots_from (sizes_of b.now) }
{
    ENTRIES_FROM
        + entries_size(layout, u16_at(b, N_OFFSET))
        + VOLUMES * (u16_at(b, L_OFFSET) as usize * 2)
}

fn slots_ok(b: &[u8], layout: u16) -> bool
    requires laid { Laid layout b.now }
    requires head_in { HeadIn b.now }
    ensures { result ≡ slots_ok b.now }
{
    let from = slots_from(b, layout);
    let used = u16_at(b, B_OFFSET) as usize;
    let records = u16_at(b, U_OFFSET) as usize;
    let end = from + u16_at(b, S_OFFSET) as usize * SLOT_SIZE;
    used_slots_ok(b, layout, from, used, records, u16_at(b, DAY_OFFSET))
        & zeros(b, from + used * SLOT_SIZE, end)
}

// The slots come first, since the records are tested slot by slot.
fn journal_ok(b: &[u8], layout: u16) -> bool
    requires laid { Laid layout b.now }
    requires head_in { (HeadIn b.now) × (slots_ok b.now ≡ true) }
    ensures { result ≡ journal_ok b.now }
{
    let slots = slots_from(b, layout);
    let from = slots + u16_at(b, S_OFFSET) as usize * SLOT_SIZE;
    let used_slots = u16_at(b, B_OFFSET) as usize;
    let used = u16_at(b, U_OFFSET) as usize;
    used_records_ok(
        b,
        slots,
        used_slots,
        from,
        u16_at(b, N_OFFSET),
        u16_at(b, L_OFFSET),
    ) & zeros(b, from + used * REC_SIZE, b.len())
}

// Whether it is a book of this layout in form: 1 where its length, layout number or sizes break the layout, 2 where it
// is otherwise out of form.
pub fn check_as(book: &[u8], layout: u16) -> Result<(), Refusal>
    ensures { refusal_number result ≡ form_as layout book.now }
{
    if !layout_ok(book, layout) {
        return Err(Refusal::BadLayout);
    }
    if !head_ok(book) {
        return Err(Refusal::BadForm);
    }
    if !blocks_ok(book, layout) {
        return Err(Refusal::BadForm);
    }
    if !slots_ok(book, layout) {
        return Err(Refusal::BadForm);
    }
    if !journal_ok(book, layout) {
        return Err(Refusal::BadForm);
    }
    Ok(())
}

// As a book of today's layout.
pub fn check(book: &[u8]) -> Result<(), Refusal>
    ensures { refusal_number result ≡ form_number book.now }
{
    check_as(book, LAYOUT)
}
