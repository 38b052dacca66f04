// The backups of a volume, by the used slots.
ghost use Rattle.book.specs.Layout.{told, Holds};
ghost use Rattle.permit.specs.Backups.{BackupsAre};

use fields::header;
use journal::slot;

// How many slots a volume has, the day of the last one, 0 where there is none, and whether one retires the volume. The
// others are its backups.
#[derive(Clone, Copy)]
pub struct Backups {
    pub count: u16,
    pub last: u16,
    pub retired: bool,
}

pub fn backups_of(book: &[u8], v: u16) -> Backups
    requires { Holds book.now }
    ensures { BackupsAre (told book.entry) v result }
{
    let used = header::used_slots(book);
    let mut count = 0;
    let mut last = 0;
    let mut retired = false;
    for q in 0..used {
        let slot = slot::slot_at(book, q);
        if slot.volume == v {
            count += 1;
            last = slot.day;
            retired = retired | slot.retire;
        }
    }
    Backups {
        count,
        last,
        retired,
    }
}
