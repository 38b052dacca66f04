// Enrol: a volume gets its retention.
ghost use Rattle.setup.specs.Promises.{Enrolled};
ghost use Rattle.words.specs.Lent.{lent};

use super::answer::number;

#[unsafe(no_mangle)]
pub extern "C" fn aspen_enrol(book: &mut [u8], volume: u16, retention: u16) -> u16
    ensures { Enrolled (lent book) volume retention result }
{
    number(engine::enrol(book, volume, retention))
}
