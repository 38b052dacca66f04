// Numbers 1 to 10 of a backup.
ghost use Rattle.std.specs.Prelude.{◌≡◌};
ghost use Rattle.book.specs.FormFacts.{FormFacts};
ghost use Rattle.book.specs.Layout.{told, Holds};
ghost use Rattle.words.specs.Refusals.{refusal_number};
ghost use Rattle.permit.specs.Allowing.{lent_number, day_number, room_number, NextBy, AllowedBy};
ghost use Rattle.permit.specs.Backups.{BackupsAre};

use super::backups::{Backups, backups_of};
use fields::header;
use list::ChangeList;
use words::limits::{LAST_VOLUME, MAX_DAY};
use words::refusals::Refusal;

// What a backup goes by once it is allowed: its list, the day until which it keeps what it replaces, and its own number.
#[derive(Clone, Copy)]
pub struct Plan<'a> {
    pub list: ChangeList<'a>,
    pub until: u16,
    pub number: u16,
}

// A volume's next slot: the day until which it keeps what it replaces, and its own number.
#[derive(Clone, Copy)]
pub struct NextSlot {
    pub until: u16,
    pub number: u16,
}

// Numbers 1 to 4.
fn check_lent(book: &[u8], pool: &[u8], spare: usize) -> Result<(), Refusal>
    ensures { refusal_number result ≡ lent_number book.now pool.now spare }
{
    buffers::check(book, pool)?;
    if spare < book.len() {
        return Err(Refusal::ShortSpare);
    }
    Ok(())
}

// Number 7, where the day can't be that of the volume's next slot.
fn check_day(book: &[u8], v: u16, day: u16, backups: Backups) -> Result<(), Refusal>
    requires holds { Holds book.now }
    requires backups_are { BackupsAre (told book) v backups }
    ensures { refusal_number result ≡ day_number (told book.entry) v day }
{
    if MAX_DAY < day {
        return Err(Refusal::BadDay);
    }
    if day < header::day(book) {
        return Err(Refusal::BadDay);
    }
    if backups.count == 0 {
        return Ok(());
    }
    if day <= backups.last {
        return Err(Refusal::BadDay);
    }
    Ok(())
}

// Numbers 5 and 7, and the volume's next slot when neither refuses it.
pub fn next_slot(book: &[u8], v: u16, day: u16) -> Result<NextSlot, Refusal>
    requires { FormFacts book.now }
    ensures { NextBy (told book.entry) v day result }
{
    if LAST_VOLUME < v {
        return Err(Refusal::BadVolume);
    }
    let days = header::retention(book, v);
    if days == 0 {
        return Err(Refusal::BadVolume);
    }
    let backups = backups_of(book, v);
    if backups.retired {
        return Err(Refusal::BadVolume);
    }
    check_day(book, v, day, backups)?;
    let last = backups.last;
    let until = last + days;
    let number = backups.count + 1;
    Ok(NextSlot { until, number })
}

// Numbers 9 and 10 for so many changes.
pub fn check_room(book: &[u8], changes: u16) -> Result<(), Refusal>
    requires { Holds book.now }
    ensures { refusal_number result ≡ room_number (told book.entry) changes }
{
    if header::slots(book) <= header::used_slots(book) {
        return Err(Refusal::NoSlot);
    }
    if (header::journal(book) as usize) < header::used_records(book) as usize + changes as usize {
        return Err(Refusal::NoRecord);
    }
    Ok(())
}

pub fn allow<'a>(
    book: &[u8],
    pool: &[u8],
    spare: usize,
    v: u16,
    day: u16,
    bytes: &'a [u8],
) -> Result<Plan<'a>, Refusal>
    ensures { AllowedBy book pool spare v day bytes result }
{
    check_lent(book, pool, spare)?;
    let slot = next_slot(book, v, day)?;
    let list = ChangeList::open(bytes, header::cells(book)).ok_or(Refusal::BadList)?;
    check_room(book, list.shape.changes)?;
    Ok(Plan {
        list,
        until: slot.until,
        number: slot.number,
    })
}
