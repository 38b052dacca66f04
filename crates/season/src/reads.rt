// Every backup read back, and each answer held against what was sent.
use crate::Season;
use crate::counts::{Call, Counts, add};
use crate::sent::{Held, NUMBERS};
use crate::sizes::{CELLS, RETENTIONS, SLOPE, VOLUMES};
use words::LBN;
use words::refusals::Refusal;

// What a read should give: the tag, or the refusal.
fn expected(kept: bool, tag: Option<u8>) -> Result<u8, Refusal> {
    if !kept {
        return Err(Refusal::NotKept);
    }
    tag.ok_or(Refusal::NotMapped)
}

impl Season {
    // One LBN of a backup.
    fn read(
        &self,
        counts: &mut Counts,
        volume: u16,
        number: u16,
        lbn: u16,
        expected: Result<u8, Refusal>,
    ) {
        let answer = engine::block(&self.book, &self.pool, volume, number, LBN(lbn));
        counts.call(Call::Read, answer.err());
        match (answer, expected) {
            (Ok(block), Ok(tag)) if samples::is_block(block, tag, SLOPE) => {
                add(&mut counts.equal, 1);
            }
            (Err(refusal), Err(wanted)) if refusal == wanted => {}
            _ => add(&mut counts.wrong, 1),
        }
    }

    // All LBNs of a backup.
    fn read_backup(&self, counts: &mut Counts, volume: u16, number: u16, held: &Held, kept: bool) {
        for (lbn, tag) in (0..CELLS).zip(held) {
            self.read(counts, volume, number, lbn, expected(kept, *tag));
        }
    }

    // All backups of all volumes. The counts are a local of their own meanwhile, so that the compiler sees that counting
    // leaves the book as it is, and has its form checked once for all LBNs of a backup.
    pub fn read_all(&mut self, today: u16) {
        let mut counts = self.counts;
        for volume in 0..VOLUMES {
            for number in 1..NUMBERS {
                if let Some(backup) = self.sent.backup(volume, number) {
                    let age = today.saturating_sub(backup.day);
                    let kept = self.sent.is_newest(volume, number)
                        || age <= RETENTIONS[volume as usize];
                    self.read_backup(&mut counts, volume, number, &backup.held, kept);
                }
            }
        }
        self.counts = counts;
    }
}
