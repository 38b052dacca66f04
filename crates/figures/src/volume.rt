// What a volume has: its retention, how many backups, and the day on which it was retired.
ghost use Rattle.std.specs.Prelude.{◌≡◌};
ghost use Rattle.book.specs.Layout.{told, Holds};
ghost use Rattle.model.specs.Journal.{slots_of, backup_count};
ghost use Rattle.model.specs.Views.{retired_on, volume_bytes};
ghost use Rattle.figures.specs.Told.{volume_told};
ghost use Rattle.words.specs.Refusals.{outcome_by};

use super::enrolled;
use fields::header;
use journal::slot;
use words::refusals::Refusal;

// Stands for no day.
const NEVER: u16 = 65535;

// What a host shows of a volume.
#[derive(Clone, Copy)]
pub struct VolumeFigures {
    pub retention: u16,
    pub backups: u16,
    pub retired: u16,
}

pub fn count_backups(book: &[u8], v: u16) -> u16
    requires { Holds book.now }
    ensures { result ≡ backup_count (told book.entry) v }
{
    let used = header::used_slots(book);
    let mut count = 0;
    for q in 0..used {
        let slot = slot::slot_at(book, q);
        if (slot.volume == v) & !slot.retire {
            count += 1;
        }
    }
    count
}

fn retired_on(book: &[u8], v: u16) -> u16
    requires { Holds book.now }
    ensures { result ≡ retired_on (slots_of (told book.entry) v) }
{
    let used = header::used_slots(book);
    for q in 0..used {
        let slot = slot::slot_at(book, q);
        if (slot.volume == v) & slot.retire {
            return slot.day;
        }
    }
    NEVER
}

pub fn volume(book: &[u8], volume: u16) -> Result<VolumeFigures, Refusal>
    ensures { outcome_by volume_told result ≡ volume_bytes book.now volume }
{
    enrolled::check(book, volume)?;
    Ok(VolumeFigures {
        retention: header::retention(book, volume),
        backups: count_backups(book, volume),
        retired: retired_on(book, volume),
    })
}
