// Reads N, L, S, J and a list of calls from standard input (docs/FORMAT.md), plays the list on a fresh book and prints
// the answers, a line for each call.

#![tactic(auto)]

mod replies;

use fields::sizes::Sizes;
use input::read_full;
use play::fresh::play_fresh;
use replies::Answers;
use std::io;
use words::refusals::Refusal;
use words::{BLOCK_SIZE, u16_at};

// N, L, S and J stand before the calls.
const SIZES: usize = 8;

const MOST_INPUT: usize = 65536;

const MOST_BOOK: usize = 8192;

const MOST_POOL: usize = 65536;

const MOST_ANSWERS: usize = 65536;

fn refused(rt: &impl Print, refusal: Refusal) -> io::Result<()> {
    let number = u16::from(refusal);
    println!(rt; "refused {number}")
}

// The list on a fresh book of these sizes, with the pool for it.
fn play(
    rt: &impl Print,
    book: &mut [u8],
    pool: &mut [u8],
    sizes: Sizes,
    calls: &[u8],
) -> io::Result<()> {
    let mut spare = [0u8; MOST_BOOK];
    let mut answers = [0u8; MOST_ANSWERS];
    let len = match play_fresh(book, pool, &mut spare, sizes, calls, &mut answers) {
        Ok(len) => len.min(MOST_ANSWERS),
        Err(refusal) => return refused(rt, refusal),
    };
    for answer in Answers(&answers[..len]) {
        println!(rt; "{answer}")?;
    }
    Ok(())
}

// The same, with sizes that may be too large.
fn sized(rt: &impl Print, sizes: Sizes, calls: &[u8]) -> io::Result<()> {
    let mut book = [0u8; MOST_BOOK];
    let mut pool = [0u8; MOST_POOL];
    let Some(book) = book.get_mut(..sizes.size()) else {
        return println!(rt; "the book is too large");
    };
    let Some(pool) = pool.get_mut(..sizes.n as usize * BLOCK_SIZE) else {
        return println!(rt; "the pool is too large");
    };
    play(rt, book, pool, sizes, calls)
}

fn main(rt: HostRuntime) -> io::Result<()> {
    let mut input = [0u8; MOST_INPUT];
    let len = read_full(&mut rt.reader(), &mut input)?;
    let Some((sizes, calls)) = input[..len].split_first_chunk::<SIZES>() else {
        return println!(rt; "no sizes");
    };
    let sizes = Sizes {
        n: u16_at(sizes, 0),
        l: u16_at(sizes, 2),
        s: u16_at(sizes, 4),
        j: u16_at(sizes, 6),
    };
    if !sizes.in_range() {
        return refused(&rt, Refusal::BadLayout);
    }
    sized(&rt, sizes, calls)
}
