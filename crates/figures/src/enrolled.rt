// What refuses a call that shows a volume, before the output is looked at: the book's form, and that the volume is
// enrolled.
ghost use Rattle.std.specs.Prelude.{◌≡◌};
ghost use Rattle.words.specs.Refusals.{refusal_number};
ghost use Rattle.model.specs.Views.{enrolled_number};

use fields::header;
use words::limits::LAST_VOLUME;
use words::refusals::Refusal;

pub fn check(book: &[u8], volume: u16) -> Result<(), Refusal>
    ensures { refusal_number result ≡ enrolled_number book.now volume }
{
    form::check(book)?;
    if volume > LAST_VOLUME {
        return Err(Refusal::BadVolume);
    }
    if header::retention(book, volume) == 0 {
        return Err(Refusal::BadVolume);
    }
    Ok(())
}
