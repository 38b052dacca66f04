// What the programs that run the engine share: sample blocks, backups of them, and a book's page.

#![tactic(auto)]

mod backups;
mod blocks;
mod lists;
mod print;

pub use backups::{Turn, backup};
pub use blocks::is_block;
pub use lists::{Changes, UNCHANGED};
pub use print::page;
