// What refuses a list of calls, before anything is played.
ghost use Rattle.std.specs.Prelude.{◌≡◌, ◌≤◌};
ghost use Rattle.words.specs.Refusals.{refusal_number};
ghost use Rattle.model.specs.OnBytes.{number_of};
ghost use Rattle.calls.specs.Answers.{longest_of};
ghost use Rattle.calls.specs.Bound.{most_answer, added_to};
ghost use Rattle.calls.specs.Promises.{room_of, playable};
ghost use Rattle.heads.specs.Kinds.{code};

use super::head::{call_end, is_call, kind_of};
use super::kind::Kind;
use words::refusals::Refusal;
use words::{BLOCK_SIZE, u16_at};

// The most bytes of answers: their length is told in 32 bits.
const MOST_ROOM: usize = 4294967295;

pub fn room_of(n: usize) -> usize
    ensures { (result ≡ room_of n) × (result ≤ n) × (result ≤ 4294967295) }
{
    if n <= MOST_ROOM {
        return n;
    }
    MOST_ROOM
}

// The bytes of the longest answer that a call of this kind can have, whose last argument is d.
fn longest(kind: Kind, d: u16) -> usize
    ensures { (result ≡ longest_of (code kind) d) × (result ≤ most_answer) }
{
    match kind {
        Kind::Backup => 7,
        Kind::Read => 1 + BLOCK_SIZE,
        Kind::Restore => 3 + (d as usize) * BLOCK_SIZE,
        Kind::Enrol | Kind::Collect | Kind::Audit | Kind::Retire => 3,
    }
}

// A sum that stops once it passes the room.
fn added(room: usize, most: usize, more: usize) -> usize
    requires { (room ≤ 4294967295) × (more ≤ most_answer) }
    ensures { result ≡ added_to room most more }
{
    if most <= room {
        return most + more;
    }
    most
}

// Number 19 where the bytes are no list of calls, 20 where the room is less than their longest answers.
pub fn check(calls: &[u8], room: usize) -> Result<(), Refusal>
    requires { room ≤ 4294967295 }
    ensures { refusal_number result ≡ number_of (playable calls.now room) }
{
    let mut at = 0;
    let mut most = 0;
    while at < calls.len() {
        if !is_call(calls, at) {
            return Err(Refusal::BadInput);
        }
        let d = u16_at(calls, at + 8);
        most = added(room, most, longest(kind_of(calls, at), d));
        at = call_end(calls, at);
    }
    if room < most {
        return Err(Refusal::ShortOutput);
    }
    Ok(())
}
