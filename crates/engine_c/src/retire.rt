// Retire (document 02, K6): a volume gets no backup any more.
ghost use Rattle.retirer.specs.Promises.{RetiredBy};
ghost use Rattle.words.specs.Lent.{lent};

use super::answer::told;

#[unsafe(no_mangle)]
pub extern "C" fn aspen_retire(
    book: &mut [u8],
    spare: &mut [u8],
    volume: u16,
    day: u16,
    cells: &mut u16,
) -> u16
    ensures { RetiredBy (lent book) (lent spare) volume day (lent cells) result }
{
    told(engine::retire(book, spare, volume, day), cells)
}
