// A list of calls on a fresh book.
ghost use Rattle.book.specs.Next.{new_sizes};
ghost use Rattle.play.specs.Promises.{PlaysFresh};
ghost use Rattle.words.specs.Lent.{lent};

use super::playing::play;
use engine::Sizes;
use words::refusals::Refusal;

// A book of these sizes, and a list of calls on it: its answers are the plain store's, whatever the calls.
pub fn play_fresh(
    book: &mut [u8],
    pool: &mut [u8],
    spare: &mut [u8],
    sizes: Sizes,
    calls: &[u8],
    answers: &mut [u8],
) -> Result<usize, Refusal>
    ensures { PlaysFresh (lent book) (lent pool) (lent spare) (new_sizes sizes.n sizes.l sizes.s sizes.j) calls (lent answers) result }
{
    engine::format(book, sizes)?;
    play(book, pool, spare, calls, answers)
}
