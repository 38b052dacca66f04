// Restore: a run of a backup's blocks, to the front of the output (document 02, K2).
ghost use Rattle.recover.specs.Promises.{Restored};
ghost use Rattle.words.specs.Lent.{lent};

use super::answer;

#[unsafe(no_mangle)]
pub extern "C" fn aspen_restore(
    book: &[u8],
    pool: &[u8],
    volume: u16,
    number: u16,
    first: u16,
    many: u16,
    out: &mut [u8],
) -> u16
    ensures { Restored book pool volume number first many (lent out) result }
{
    answer::number(engine::restore(book, pool, volume, number, first, many, out))
}
