// The calls of the cases, each with the words of its answer.
use crate::facts;
use engine::Sizes;
use samples::{Changes, Turn, UNCHANGED};
use std::io;
use words::LBN;
use words::refusals::Refusal;

// N, L, S and J of the cases.
const BLOCKS: u16 = 4;

pub const CELLS: u16 = 4;

const SLOTS: u16 = 6;

const RECORDS: u16 = 8;

const LBNS: usize = CELLS as usize;

const BOOK_SIZE: usize = 280;

const POOL_SIZE: usize = 2048;

// Blocks and fingerprints of one letter throughout.
const SLOPE: u8 = 0;

// A letter for each LBN of a volume.
pub type Letters = [u8; LBNS];

// The box of the cases.
#[derive(Drop)]
pub struct Clinic {
    book: [u8; BOOK_SIZE],
    pool: [u8; POOL_SIZE],
}

// The number of the refusal, or 0.
fn refused_by(answer: Result<(), Refusal>) -> u16 {
    match answer {
        Ok(()) => 0,
        Err(refusal) => u16::from(refusal),
    }
}

fn change(rt: &impl Print, lbn: usize, print: u8, block: u8) -> io::Result<()> {
    if block == UNCHANGED {
        return Ok(());
    }
    print!(rt; ", LBN {lbn} = {}", char::from(block))?;
    if print != block {
        print!(rt; " with the fingerprint of {}", char::from(print))?;
    }
    Ok(())
}

// What the list changes: each LBN with the letter of its block, and of its fingerprint where that is another.
fn changes(rt: &impl Print, prints: &Letters, blocks: &Letters) -> io::Result<()> {
    for lbn in 0..LBNS {
        change(rt, lbn, prints[lbn], blocks[lbn])?;
    }
    Ok(())
}

impl Clinic {
    pub fn new() -> Self {
        Clinic {
            book: [0; BOOK_SIZE],
            pool: [0; POOL_SIZE],
        }
    }

    fn enrol(&mut self, rt: &impl Print, volume: u16, days: u16) -> io::Result<()> {
        let number = refused_by(engine::enrol(&mut self.book, volume, days));
        println!(rt; "enrol volume {volume} for {days} days: {number}")
    }

    // A fresh book with both volumes.
    pub fn start(&mut self, rt: &impl Print) -> io::Result<()> {
        let made = engine::format(
            &mut self.book,
            Sizes {
                n: BLOCKS,
                l: CELLS,
                s: SLOTS,
                j: RECORDS,
            },
        );
        println!(rt; "format: {}", refused_by(made))?;
        self.enrol(rt, 0, 10)?;
        self.enrol(rt, 1, 3)
    }

    // A backup of blocks under fingerprints that may be of other letters.
    pub fn forged(
        &mut self,
        rt: &impl Print,
        case: char,
        turn: Turn,
        prints: &Letters,
        blocks: &Letters,
    ) -> io::Result<()> {
        print!(rt; "{case}. day {}, volume {}", turn.day, turn.volume)?;
        changes(rt, prints, blocks)?;
        let mut spare = [0u8; BOOK_SIZE];
        let list = Changes {
            prints,
            blocks,
            slope: SLOPE,
        };
        match samples::backup(&mut self.book, &mut self.pool, &mut spare, turn, list) {
            Ok(backed) => {
                print!(rt;
                    ": backup {}, taken {}, touched {}",
                    backed.number, backed.taken, backed.touched
                )?;
            }
            Err(refusal) => print!(rt; ": refused {}", u16::from(refusal))?,
        }
        facts::cells(rt, &self.book, turn.volume, blocks)?;
        facts::state(rt, &self.book)
    }

    pub fn backup(
        &mut self,
        rt: &impl Print,
        case: char,
        turn: Turn,
        letters: &Letters,
    ) -> io::Result<()> {
        self.forged(rt, case, turn, letters, letters)
    }

    // A collection; the line goes on with a read.
    pub fn collect(&mut self, rt: &impl Print, case: char, day: u16) -> io::Result<()> {
        print!(rt; "{case}. collect on {day}")?;
        match engine::collect(&mut self.book, day) {
            Ok(freed) => print!(rt; ": freed {freed},"),
            Err(refusal) => print!(rt; ": refused {}", u16::from(refusal)),
        }
    }

    // A read, to the end of its line: what it gives, and whether that is the block of the letter.
    pub fn read(
        &self,
        rt: &impl Print,
        volume: u16,
        number: u16,
        lbn: u16,
        letter: u8,
    ) -> io::Result<()> {
        print!(rt; " read volume {volume}, number {number}, LBN {lbn}")?;
        match engine::block(&self.book, &self.pool, volume, number, LBN(lbn)) {
            Ok(block) if samples::is_block(block, letter, SLOPE) => {
                print!(rt; ": the bytes of {}", char::from(letter))?;
            }
            Ok(_) => print!(rt; ": other bytes than those of {}", char::from(letter))?,
            Err(refusal) => print!(rt; ": refused {}", u16::from(refusal))?,
        }
        facts::state(rt, &self.book)
    }

    pub fn page(&self, rt: &impl Print) -> io::Result<()> {
        samples::page(rt, &self.book)
    }
}
