// The calls of the engine on the season's book, each counted.
use crate::Season;
use crate::counts::{Call, add};
use crate::sizes::{BLOCKS, BOOK_SIZE, CELLS, RECORDS, RETENTIONS, SLOPE, SLOTS, Tags, VOLUMES};
use engine::{Backed, Sizes};
use samples::{Changes, Turn};
use words::refusals::Refusal;

impl Season {
    // A fresh book with eight volumes.
    pub fn start(&mut self) {
        let made = engine::format(
            &mut self.book,
            Sizes {
                n: BLOCKS,
                l: CELLS,
                s: SLOTS,
                j: RECORDS,
            },
        );
        self.counts.call(Call::Format, made.err());
        for volume in 0..VOLUMES {
            let enrolled = engine::enrol(&mut self.book, volume, RETENTIONS[volume as usize]);
            self.counts.call(Call::Enrol, enrolled.err());
        }
    }

    pub fn backup(&mut self, turn: Turn, prints: &Tags, blocks: &Tags) -> Result<Backed, Refusal> {
        let mut spare = [0u8; BOOK_SIZE];
        let changes = Changes {
            prints,
            blocks,
            slope: SLOPE,
        };
        let answer = samples::backup(&mut self.book, &mut self.pool, &mut spare, turn, changes);
        self.counts.call(Call::Backup, answer.err());
        if let Ok(backed) = answer {
            add(&mut self.counts.taken, backed.taken);
        }
        answer
    }

    pub fn collect(&mut self, day: u16) {
        let answer = engine::collect(&mut self.book, day);
        self.counts.call(Call::Collect, answer.err());
        if let Ok(freed) = answer {
            add(&mut self.counts.freed, freed);
        }
    }

    pub fn audit(&mut self) {
        let answer = engine::audit(&self.book);
        self.counts.call(Call::Audit, answer.err());
        if answer == Ok(true) {
            add(&mut self.counts.sound, 1);
        } else {
            add(&mut self.counts.wrong, 1);
        }
    }
}
