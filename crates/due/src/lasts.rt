// Each volume's last day, on the way through the slots.
ghost use Rattle.std.specs.Prelude.{◌≡◌, ◌+◌, ◌<◌, length};
ghost use Rattle.book.specs.FormFacts.{BookParts};
ghost use Rattle.book.specs.Layout.{told, Holds};
ghost use Rattle.model.specs.JournalAt.{backup_at};
ghost use Rattle.due.specs.Lasts.{LastsAre, due_in};

use fields::header::retention;
use fields::offsets::VOLUMES;
use journal::slot::slot_at;

// The day of each volume's last backup, 0 where it has none yet.
pub type Lasts = [u16; VOLUMES];

// The last day for which the backup of slot q keeps what it replaced. Its day is then its volume's last one.
pub fn due_day(book: &[u8], lasts: &mut Lasts, q: u16) -> u16
    requires holds { Holds book.now × BookParts (told book) }
    requires q_in_bounds { (q < length (told book).slots) × LastsAre (told book) q lasts.old }
    ensures value { result ≡ due_in (told book.entry) (backup_at (told book.entry) q) }
    ensures lasts_are { LastsAre (told book.entry) (q + 1) lasts.new }
{
    let slot = slot_at(book, q);
    let volume = slot.volume;
    let day = slot.day;
    let at = volume as usize;
    let last = lasts[at];
    lasts[at] = day;
    last + retention(book, volume)
}
