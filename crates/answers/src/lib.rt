// Each call made, and its answer in bytes stored at `to`; each gives the offset past it.

#![tactic(auto)]

ghost use Rattle.std.specs.Prelude.{◌+◌, ◌*◌, ◌≤◌, ◌∷◌, length};
ghost use Rattle.words.specs.Numbers.{two};
ghost use Rattle.words.specs.Laying.{Stored};
ghost use Rattle.model.specs.Calls.{enrol, backup, collect, retire, read, audit};
ghost use Rattle.calls.specs.Asked.{listed, restore};
ghost use Rattle.calls.specs.Doing.{DidLent, DidSpared, DidAnySpare, DidAnyPool};
ghost use Rattle.words.specs.Lent.{lent};
ghost use Rattle.words.specs.Refusals.{number};
ghost use Rattle.answers.specs.Tags.{code};

use words::refusals::Refusal;
use words::{BLOCK_SIZE, LBN, put_bytes, put_three, put_u16};

// What an answer is of: its first byte.
#[derive(Clone, Copy)]
enum Tag {
    // A refusal, or 0 of a call that answers nothing else.
    Number = 0,
    Backed,
    // One number: a collect's freed, a retire's cells.
    Gave,
    Block,
    Sound,
    Run,
}

// A tag and a number.
fn tell(answers: &mut [u8], to: usize, tag: Tag, v: u16) -> usize
    requires { to + 3 ≤ length answers.old }
    ensures { Stored answers.old to (code tag ∷ two v) answers.new result }
{
    answers[to] = tag as u8;
    put_u16(answers, to + 1, v);
    to + 3
}

fn tell_refusal(answers: &mut [u8], to: usize, refusal: Refusal) -> usize
    requires { to + 3 ≤ length answers.old }
    ensures { Stored answers.old to (0 ∷ two (number refusal)) answers.new result }
{
    tell(answers, to, Tag::Number, u16::from(refusal))
}

pub fn answer_enrol(book: &mut [u8], v: u16, retention: u16, answers: &mut [u8], to: usize) -> usize
    requires { to + 3 ≤ length answers.old }
    ensures { DidAnyPool (lent book) (listed (enrol v retention)) (lent answers) to result }
{
    match engine::enrol(book, v, retention) {
        Ok(()) => tell(answers, to, Tag::Number, 0),
        Err(refusal) => tell_refusal(answers, to, refusal),
    }
}

pub fn answer_collect(book: &mut [u8], day: u16, answers: &mut [u8], to: usize) -> usize
    requires { to + 3 ≤ length answers.old }
    ensures { DidAnyPool (lent book) (listed (collect day)) (lent answers) to result }
{
    match engine::collect(book, day) {
        Ok(freed) => tell(answers, to, Tag::Gave, freed),
        Err(refusal) => tell_refusal(answers, to, refusal),
    }
}

pub fn answer_retire(
    book: &mut [u8],
    spare: &mut [u8],
    v: u16,
    day: u16,
    answers: &mut [u8],
    to: usize,
) -> usize
    requires { to + 3 ≤ length answers.old }
    ensures { DidSpared (lent book) (lent spare) (listed (retire v day)) (lent answers) to result }
{
    match engine::retire(book, spare, v, day) {
        Ok(cells) => tell(answers, to, Tag::Gave, cells),
        Err(refusal) => tell_refusal(answers, to, refusal),
    }
}

pub fn answer_read(
    book: &[u8],
    pool: &[u8],
    v: u16,
    number: u16,
    lbn: u16,
    answers: &mut [u8],
    to: usize,
) -> usize
    requires { to + 513 ≤ length answers.old }
    ensures { DidAnySpare book pool (listed (read v number lbn)) (lent answers) to result }
{
    match engine::offset(book, pool, v, number, LBN(lbn)) {
        Ok(from) => {
            answers[to] = Tag::Block as u8;
            put_bytes(answers, to + 1, &pool[from..from + BLOCK_SIZE]);
            to + 1 + BLOCK_SIZE
        }
        Err(refusal) => tell_refusal(answers, to, refusal),
    }
}

// The blocks go to where the answer has them.
pub fn answer_restore(
    book: &[u8],
    pool: &[u8],
    v: u16,
    number: u16,
    first: u16,
    many: u16,
    answers: &mut [u8],
    to: usize,
) -> usize
    requires { to + 3 + many * 512 ≤ length answers.old }
    ensures { DidAnySpare book pool (restore v number first many) (lent answers) to result }
{
    let from = to + 3;
    let end = from + (many as usize) * BLOCK_SIZE;
    match engine::restore(book, pool, v, number, first, many, &mut answers[from..end]) {
        Ok(()) => {
            tell(answers, to, Tag::Run, many);
            end
        }
        Err(refusal) => tell_refusal(answers, to, refusal),
    }
}

pub fn answer_audit(book: &[u8], answers: &mut [u8], to: usize) -> usize
    requires { to + 3 ≤ length answers.old }
    ensures { DidAnyPool book (listed audit) (lent answers) to result }
{
    match engine::audit(book) {
        Ok(sound) => tell(answers, to, Tag::Sound, u16::from(sound)),
        Err(refusal) => tell_refusal(answers, to, refusal),
    }
}

pub fn answer_backup(
    book: &mut [u8],
    pool: &mut [u8],
    spare: &mut [u8],
    v: u16,
    day: u16,
    list: &[u8],
    answers: &mut [u8],
    to: usize,
) -> usize
    requires { to + 7 ≤ length answers.old }
    ensures { DidLent (lent book) (lent pool) (lent spare) (listed (backup v day list.now)) (lent answers) to result }
{
    match engine::backup(book, pool, spare, v, day, list) {
        Ok(backed) => {
            answers[to] = Tag::Backed as u8;
            put_three(answers, to + 1, backed.number, backed.taken, backed.touched);
            to + 7
        }
        Err(refusal) => tell_refusal(answers, to, refusal),
    }
}
