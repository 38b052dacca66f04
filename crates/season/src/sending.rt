// What a volume sends on its turn.
use crate::Season;
use crate::counts::add;
use crate::sizes::LBNS;
use samples::{Turn, UNCHANGED};
use words::refusals::Refusal;

impl Season {
    // Now and then a second backup on the same day, which its day refuses.
    fn again(&mut self, turn: Turn) {
        if self.draws.last() % 8 != 0 {
            return;
        }
        let nothing = [UNCHANGED; LBNS];
        let answer = self.backup(turn, &nothing, &nothing);
        if answer.err() != Some(Refusal::BadDay) {
            add(&mut self.counts.wrong, 1);
        }
    }

    // A backup of what changed.
    fn change(&mut self, turn: Turn) {
        let changes = self.draws.changes(turn.day);
        if let Ok(backed) = self.backup(turn, &changes, &changes) {
            self.sent.note(turn, backed.number, &changes);
            self.again(turn);
        }
    }

    // Other bytes under the fingerprint of a block that the volume holds are refused by 11, or by 9 or 10 once slots or
    // journal are full.
    fn forge(&mut self, turn: Turn) {
        let Some(known) = self.sent.held(turn.volume)[turn.day as usize % LBNS] else {
            return;
        };
        let mut prints = [UNCHANGED; LBNS];
        let mut blocks = [UNCHANGED; LBNS];
        prints[0] = known;
        blocks[0] = known.wrapping_sub(1);
        if self.backup(turn, &prints, &blocks).is_ok() {
            add(&mut self.counts.wrong, 1);
        }
    }

    // A volume sends a backup about every third day, and now and then a list with a forged fingerprint.
    pub fn send(&mut self, turn: Turn) {
        match self.draws.draw() % 12 {
            0..=3 => self.change(turn),
            4 => self.forge(turn),
            _ => {}
        }
    }
}
