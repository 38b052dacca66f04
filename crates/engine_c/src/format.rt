// Format: a fresh book.
ghost use Rattle.setup.specs.Promises.{Formatted};
ghost use Rattle.words.specs.Lent.{lent};

use super::answer::number;
use engine::Sizes;

#[unsafe(no_mangle)]
pub extern "C" fn aspen_format(book: &mut [u8], n: u16, l: u16, s: u16, j: u16) -> u16
    ensures { Formatted (lent book) n l s j result }
{
    number(engine::format(book, Sizes { n, l, s, j }))
}
