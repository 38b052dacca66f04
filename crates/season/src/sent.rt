// What each volume held at each of its backups.
use crate::sizes::{LBNS, Tags, VOLUMES};
use samples::{Turn, UNCHANGED};

// Above the number of any backup of a season.
pub const NUMBERS: u16 = 64;

// The tag of each LBN, none where nothing was sent.
pub type Held = [Option<u8>; LBNS];

#[derive(Clone, Copy)]
pub struct Backup {
    pub day: u16,
    pub held: Held,
}

// What a volume holds now, and its backups by their numbers.
#[derive(Clone, Copy)]
struct Volume {
    held: Held,
    newest: u16,
    backups: [Option<Backup>; NUMBERS as usize],
}

#[derive(Drop)]
pub struct Sent {
    volumes: [Volume; VOLUMES as usize],
}

impl Volume {
    fn change(&mut self, changes: &Tags) {
        for (tag, change) in self.held.iter_mut().zip(changes) {
            if *change != UNCHANGED {
                *tag = Some(*change);
            }
        }
    }
}

impl Sent {
    pub fn new() -> Self {
        let volume = Volume {
            held: [None; LBNS],
            newest: 0,
            backups: [None; NUMBERS as usize],
        };
        Sent {
            volumes: [volume; VOLUMES as usize],
        }
    }

    fn volume(&self, v: u16) -> &Volume {
        &self.volumes[(v % VOLUMES) as usize]
    }

    // What the volume holds now.
    pub fn held(&self, volume: u16) -> &Held {
        &self.volume(volume).held
    }

    pub fn is_newest(&self, volume: u16, number: u16) -> bool {
        self.volume(volume).newest == number
    }

    pub fn backup(&self, volume: u16, number: u16) -> Option<Backup> {
        self.volume(volume).backups[(number % NUMBERS) as usize]
    }

    // The backup of this number, with these changes to what the volume held.
    pub fn note(&mut self, turn: Turn, number: u16, changes: &Tags) {
        let volume = &mut self.volumes[(turn.volume % VOLUMES) as usize];
        volume.change(changes);
        volume.newest = number;
        volume.backups[(number % NUMBERS) as usize] = Some(Backup {
            day: turn.day,
            held: volume.held,
        });
    }
}
