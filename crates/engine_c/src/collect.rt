// Collect: blocks that nothing needs become free.
ghost use Rattle.collector.specs.Promises.{Swept};
ghost use Rattle.words.specs.Lent.{lent};

use super::answer::told;

#[unsafe(no_mangle)]
pub extern "C" fn aspen_collect(book: &mut [u8], day: u16, freed: &mut u16) -> u16
    ensures { Swept (lent book) day (lent freed) result }
{
    told(engine::collect(book, day), freed)
}
