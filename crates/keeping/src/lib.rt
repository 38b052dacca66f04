// Whether a volume has a backup of this number and keeps it, and where its later backups start.

#![tactic(auto)]

ghost use Rattle.std.specs.Prelude.{◌≡◌};
ghost use Rattle.book.specs.Layout.{told, Holds};
ghost use Rattle.book.specs.FormFacts.{FormFacts};
ghost use Rattle.keeping.specs.After.{AfterIs, kept_from};
ghost use Rattle.keeping.specs.Kept.{KeptIs};

use fields::header;
use journal::slot;
use words::limits::LAST_VOLUME;
use words::refusals::Refusal;

// A volume's slots after its k-th, where it has one: `taken` is that slot's day, and `retire` whether it retires the
// volume. Slot `at` is the first after it; where there is none, `at` is past the used slots.
#[derive(Clone, Copy)]
pub struct After {
    pub taken: u16,
    pub retire: bool,
    pub at: u16,
}

// The volume has no k-th slot: it lacks `missing` slots to have one, and `at` is past the used slots.
#[derive(Clone, Copy)]
pub struct Short {
    pub missing: u16,
    pub at: u16,
}

pub fn backups_after(book: &[u8], v: u16, k: u16) -> Result<After, Short>
    requires { Holds book.now }
    ensures { AfterIs (told book.entry) v k result }
{
    let used = header::used_slots(book);
    let mut missing = k;
    let mut taken = 0;
    let mut retire = false;
    for q in 0..used {
        let slot = slot::slot_at(book, q);
        if slot.volume == v {
            if missing == 0 {
                return Ok(After {
                    taken,
                    retire,
                    at: q,
                });
            }
            missing -= 1;
            taken = slot.day;
            retire = slot.retire;
        }
    }
    if missing != 0 {
        return Err(Short { missing, at: used });
    }
    Ok(After {
        taken,
        retire,
        at: used,
    })
}

// Whether a backup that was taken on day `taken` is kept, where the volume keeps each for `days` days. Slot `at` is the
// volume's next one, if any: the newest backup is always kept, unless the volume was retired after it.
pub fn is_kept(book: &[u8], taken: u16, at: u16, days: u16) -> bool
    requires { Holds book.now }
    ensures { result ≡ kept_from (told book.entry) taken at days }
{
    if header::used_slots(book) <= at {
        return true;
    }
    (taken as u32) + (days as u32) >= (header::day(book) as u32)
}

// Where a backup is there and kept, the slot from which on its volume's later backups are. Else numbers 5, 15 and 16.
pub fn kept_backup(book: &[u8], v: u16, k: u16) -> Result<u16, Refusal>
    requires { FormFacts book.now }
    ensures { KeptIs (told book.entry) v k result }
{
    if v > LAST_VOLUME {
        return Err(Refusal::BadVolume);
    }
    let days = header::retention(book, v);
    if days == 0 {
        return Err(Refusal::BadVolume);
    }
    if k == 0 {
        return Err(Refusal::NoBackup);
    }
    let Ok(after) = backups_after(book, v, k) else {
        return Err(Refusal::NoBackup);
    };
    // a retirement is its volume's last slot, and has no number
    if after.retire {
        return Err(Refusal::NoBackup);
    }
    let at = after.at;
    if !is_kept(book, after.taken, at, days) {
        return Err(Refusal::NotKept);
    }
    Ok(at)
}
