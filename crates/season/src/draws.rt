// A small generator, which gives the same season in each run. The upper bits of a seed are the better ones.
use crate::sizes::{LBNS, Tags};
use samples::UNCHANGED;

#[derive(Clone, Copy)]
pub struct Draws {
    seed: u32,
}

impl Draws {
    pub fn new() -> Self {
        Draws { seed: 2026 }
    }

    // The number that was drawn last.
    pub fn last(&self) -> u32 {
        self.seed / 65536
    }

    // A linear congruential step.
    pub fn draw(&mut self) -> u32 {
        self.seed = self.seed.wrapping_mul(1664525).wrapping_add(1013904223);
        self.last()
    }

    // A block of the day's vocabulary. All volumes share it, and each day one block leaves it and another enters.
    fn word(&mut self, day: u16) -> u8 {
        48 + ((u32::from(day) + self.draw() % 40) % 200) as u8
    }

    // The changes of a backup: up to five LBNs change to blocks of the day.
    pub fn changes(&mut self, day: u16) -> Tags {
        let mut tags = [UNCHANGED; LBNS];
        for _ in 0..self.draw() % 6 {
            let lbn = self.draw() as usize % LBNS;
            tags[lbn] = self.word(day);
        }
        tags
    }
}
