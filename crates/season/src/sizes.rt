// The sizes of the season's book, small enough that pool, journal and slots fill up.
use fields::offsets::{ENTRIES_FROM, ENTRY_SIZE, REC_SIZE, SLOT_SIZE};
use words::BLOCK_SIZE;
use words::limits::LAST_VOLUME;

// N, L, S and J.
pub const BLOCKS: u16 = 98;

pub const CELLS: u16 = 16;

pub const SLOTS: u16 = 280;

pub const RECORDS: u16 = 610;

pub const VOLUMES: u16 = LAST_VOLUME + 1;

pub const LBNS: usize = CELLS as usize;

pub const BOOK_SIZE: usize = ENTRIES_FROM
    + BLOCKS as usize * ENTRY_SIZE
    + VOLUMES as usize * (LBNS * 2)
    + SLOTS as usize * SLOT_SIZE
    + RECORDS as usize * REC_SIZE;

pub const POOL_SIZE: usize = BLOCKS as usize * BLOCK_SIZE;

pub const DAYS: u16 = 126;

// The days of each volume.
pub const RETENTIONS: [u16; VOLUMES as usize] = [1, 2, 3, 7, 14, 30, 60, 90];

// Each byte of a block differs from the one before it.
pub const SLOPE: u8 = 7;

// What a volume sends: for each LBN the tag of its block, or that it doesn't change.
pub type Tags = [u8; LBNS];
