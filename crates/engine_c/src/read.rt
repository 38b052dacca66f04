// Read: a block of a backup, by its offset in the pool.
ghost use Rattle.restorer.specs.Promises.{Located};
ghost use Rattle.words.specs.Lent.{lent};

use super::answer::told;
use words::LBN;

// The block of an accepted read is 512 bytes of the pool from `at` on.
#[unsafe(no_mangle)]
pub extern "C" fn aspen_read(
    book: &[u8],
    pool: &[u8],
    volume: u16,
    number: u16,
    lbn: u16,
    at: &mut u32,
) -> u16
    ensures { Located book pool volume number lbn (lent at) result }
{
    let answer = engine::offset(book, pool, volume, number, LBN(lbn));
    told(answer.map(|from| from as u32), at)
}
