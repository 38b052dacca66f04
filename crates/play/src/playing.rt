// A list of calls, played one call after the other.
ghost use Rattle.std.specs.Prelude.{◌≡◌, true, ◌+◌, ◌≤◌, length};
ghost use Rattle.calls.specs.Coding.{is_call, call_at};
ghost use Rattle.calls.specs.Answers.{longest_reply, most_of};
ghost use Rattle.calls.specs.Doing.{DidLent, DidAllLent};
ghost use Rattle.calls.specs.Reading.{rest_of, Good, backup_call};
ghost use Rattle.play.specs.Promises.{Plays};
ghost use Rattle.words.specs.Lent.{lent};

use answers::{
    answer_audit, answer_backup, answer_collect, answer_enrol, answer_read, answer_restore,
    answer_retire,
};
use heads::checking::{check, room_of};
use heads::head::{HEAD_SIZE, call_end, data_size, kind_of};
use heads::kind::Kind;
use words::refusals::Refusal;
use words::u16_at;

// The backup at `at`, whose change list is its data.
fn play_backup(
    book: &mut [u8],
    pool: &mut [u8],
    spare: &mut [u8],
    calls: &[u8],
    at: usize,
    answers: &mut [u8],
    to: usize,
) -> usize
    requires { (is_call calls.now at ≡ true) × (to + 7 ≤ length answers.old) }
    ensures { DidLent (lent book) (lent pool) (lent spare) (backup_call calls.now at) (lent answers) to result }
{
    let from = at + HEAD_SIZE;
    let end = from + data_size(calls, at);
    let volume = u16_at(calls, at + 2);
    let day = u16_at(calls, at + 4);
    answer_backup(
        book,
        pool,
        spare,
        volume,
        day,
        &calls[from..end],
        answers,
        to,
    )
}

// The call at `at`, and its answer to `to`. It answers the offset past that.
fn play_call(
    book: &mut [u8],
    pool: &mut [u8],
    spare: &mut [u8],
    calls: &[u8],
    at: usize,
    answers: &mut [u8],
    to: usize,
) -> usize
    requires { (is_call calls.now at ≡ true) × (to + longest_reply (call_at calls.now at) ≤ length answers.old) }
    ensures { DidLent (lent book) (lent pool) (lent spare) (call_at calls.now at) (lent answers) to result }
{
    let a = u16_at(calls, at + 2);
    let b = u16_at(calls, at + 4);
    let c = u16_at(calls, at + 6);
    match kind_of(calls, at) {
        Kind::Enrol => answer_enrol(book, a, b, answers, to),
        Kind::Backup => play_backup(book, pool, spare, calls, at, answers, to),
        Kind::Collect => answer_collect(book, a, answers, to),
        Kind::Read => answer_read(book, pool, a, b, c, answers, to),
        Kind::Audit => answer_audit(book, answers, to),
        Kind::Restore => {
            let d = u16_at(calls, at + 8);
            answer_restore(book, pool, a, b, c, d, answers, to)
        }
        Kind::Retire => answer_retire(book, spare, a, b, answers, to),
    }
}

// All calls of a list. It answers how many bytes their answers have.
fn play_list(
    book: &mut [u8],
    pool: &mut [u8],
    spare: &mut [u8],
    calls: &[u8],
    answers: &mut [u8],
) -> usize
    requires { Good calls.now 0 × (most_of (rest_of calls.now 0) ≤ length answers.old) }
    ensures { DidAllLent (lent book) (lent pool) (lent spare) (rest_of calls.now 0) (lent answers) result }
{
    let mut at = 0;
    let mut to = 0;
    while at < calls.len() {
        to = play_call(book, pool, spare, calls, at, answers, to);
        at = call_end(calls, at);
    }
    to
}

// A list of calls on book, pool and spare; its answers go to the front of `answers`. It answers how many bytes they
// have.
pub fn play(
    book: &mut [u8],
    pool: &mut [u8],
    spare: &mut [u8],
    calls: &[u8],
    answers: &mut [u8],
) -> Result<usize, Refusal>
    ensures { Plays (lent book) (lent pool) (lent spare) calls (lent answers) result }
{
    check(calls, room_of(answers.len()))?;
    Ok(play_list(book, pool, spare, calls, answers))
}
