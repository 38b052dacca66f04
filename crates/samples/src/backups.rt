// A backup of sample blocks.
use super::lists::{Changes, LONGEST, write_list};
use engine::Backed;
use words::refusals::Refusal;

// A volume's turn on a day.
#[derive(Clone, Copy)]
pub struct Turn {
    pub volume: u16,
    pub day: u16,
}

pub fn backup(
    book: &mut [u8],
    pool: &mut [u8],
    spare: &mut [u8],
    turn: Turn,
    changes: Changes<'_>,
) -> Result<Backed, Refusal> {
    let mut list = [0u8; LONGEST];
    let len = write_list(&mut list, changes)?;
    engine::backup(book, pool, spare, turn.volume, turn.day, &list[..len])
}
