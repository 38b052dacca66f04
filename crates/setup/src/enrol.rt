// Enrol: a volume gets its retention.
ghost use Rattle.std.specs.Prelude.{◌≡◌};
ghost use Rattle.book.specs.Layout.{told, Holds};
ghost use Rattle.model.specs.Enrol.{enrol_number};
ghost use Rattle.setup.specs.Promises.{Enrolled};
ghost use Rattle.words.specs.Lent.{lent};
ghost use Rattle.words.specs.Refusals.{refusal_number};

use fields::header;
use words::limits::{LAST_VOLUME, MAX_RETENTION};
use words::refusals::Refusal;

// Numbers 5 and 6.
fn check(book: &[u8], volume: u16, retention: u16) -> Result<(), Refusal>
    requires { Holds book.now }
    ensures { refusal_number result ≡ enrol_number (told book.entry) volume retention }
{
    if volume > LAST_VOLUME {
        return Err(Refusal::BadVolume);
    }
    if header::retention(book, volume) != 0 {
        return Err(Refusal::BadVolume);
    }
    if retention == 0 {
        return Err(Refusal::BadRetention);
    }
    if retention > MAX_RETENTION {
        return Err(Refusal::BadRetention);
    }
    Ok(())
}

pub fn enrol(book: &mut [u8], volume: u16, retention: u16) -> Result<(), Refusal>
    ensures { Enrolled (lent book) volume retention (refusal_number result) }
{
    form::check(book)?;
    check(book, volume, retention)?;
    header::set_retention(book, volume, retention);
    Ok(())
}
