// How large a book can be (document 01, "The book"), how long a run of a change list, and the tables that have room for
// the largest book.
pub const MAX_BLOCKS: usize = 4096;

pub const MAX_LBNS: usize = 1024;

// Blocks of one run (document 02, K1).
pub const MAX_RUN: usize = 64;

pub const MAX_SLOTS: u16 = 1024;

pub const MAX_RECORDS: u16 = 16384;

pub const MAX_RETENTION: u16 = 5000;

pub const MAX_DAY: u16 = 60000;

// An expiry is a slot's day plus a retention.
pub const MAX_EXPIRY: u16 = MAX_DAY + MAX_RETENTION;

// Document 02, K3.
pub const MAX_COUNT: u16 = 65535;

// Volumes are 0 to LAST_VOLUME.
pub const LAST_VOLUME: u16 = 7;

// A number for each block of the pool.
pub type Table = [u16; MAX_BLOCKS];
