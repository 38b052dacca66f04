// A list of calls, played one call after the other.
ghost use Rattle.calls.specs.Lending.{PlayedLent};
ghost use Rattle.words.specs.Lent.{lent};

// A list of calls on book, pool and spare; its answers go to the front of `answers`, and `written` is their length.
#[unsafe(no_mangle)]
pub extern "C" fn aspen_play(
    book: &mut [u8],
    pool: &mut [u8],
    spare: &mut [u8],
    calls: &[u8],
    answers: &mut [u8],
    written: &mut u32,
) -> u16
    ensures { PlayedLent (lent book) (lent pool) (lent spare) calls (lent answers) (lent written) result }
{
    match play::playing::play(book, pool, spare, calls, answers) {
        Ok(len) => {
            *written = len as u32;
            0
        }
        Err(refusal) => u16::from(refusal),
    }
}
