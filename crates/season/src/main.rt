// A season of the box: eight volumes with retentions of a day to a quarter of a year send what changed; once a week
// blocks are collected, and every backup is read back and compared with what was sent. It prints the book's page, how
// many calls of each kind were made and what came of them.

#![tactic(auto)]

mod calls;
mod counts;
mod draws;
mod reads;
mod sending;
mod sent;
mod sizes;

use counts::Counts;
use draws::Draws;
use samples::Turn;
use sent::Sent;
use sizes::{BOOK_SIZE, DAYS, POOL_SIZE, VOLUMES};
use std::io;

// The box, what its volumes sent, what came of the calls, and what is drawn next.
#[derive(Drop)]
struct Season {
    book: [u8; BOOK_SIZE],
    pool: [u8; POOL_SIZE],
    sent: Sent,
    counts: Counts,
    draws: Draws,
}

impl Season {
    fn new() -> Self {
        Season {
            book: [0; BOOK_SIZE],
            pool: [0; POOL_SIZE],
            sent: Sent::new(),
            counts: Counts::new(),
            draws: Draws::new(),
        }
    }

    // The end of a day: an audit, and once a week a collection and a reading of all backups before it.
    fn end_of_day(&mut self, day: u16) {
        if day % 7 == 0 {
            self.collect(day);
            self.read_all(day);
        }
        self.audit();
    }

    // The volumes have their turns in order.
    fn day(&mut self, day: u16) {
        for volume in 0..VOLUMES {
            self.send(Turn { volume, day });
        }
        self.end_of_day(day);
    }
}

fn main(rt: HostRuntime) -> io::Result<()> {
    let mut season = Season::new();
    season.start();
    for day in 1..=DAYS {
        season.day(day);
    }
    samples::page(&rt, &season.book)?;
    season.counts.summary(&rt)
}
