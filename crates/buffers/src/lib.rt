// Book and pool as a call is lent them: numbers 1 to 3, which read and backup check first.

#![tactic(auto)]

ghost use Rattle.std.specs.Prelude.{◌≡◌};
ghost use Rattle.words.specs.Refusals.{refusal_number};
ghost use Rattle.buffers.specs.Buffers.{buffers_number};

use fields::header;
use words::BLOCK_SIZE;
use words::refusals::Refusal;

pub fn check(book: &[u8], pool: &[u8]) -> Result<(), Refusal>
    ensures { refusal_number result ≡ buffers_number book.now pool.now }
{
    form::check(book)?;
    if pool.len() != header::blocks(book) as usize * BLOCK_SIZE {
        return Err(Refusal::BadPool);
    }
    Ok(())
}
