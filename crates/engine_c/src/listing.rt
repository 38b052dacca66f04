// What a host shows row by row: the backups of a volume, its map, and the blocks of the pool.
ghost use Rattle.calendar.specs.Promises.{BackupsTold};
ghost use Rattle.rows.specs.Promises.{CellsTold, BlocksTold};
ghost use Rattle.words.specs.Lent.{lent};

use super::answer::{number, told};

#[unsafe(no_mangle)]
pub extern "C" fn aspen_backups(book: &[u8], volume: u16, out: &mut [u8], count: &mut u16) -> u16
    ensures { BackupsTold book volume (lent out) (lent count) result }
{
    told(engine::backups(book, volume, out), count)
}

#[unsafe(no_mangle)]
pub extern "C" fn aspen_cells(book: &[u8], volume: u16, out: &mut [u8]) -> u16
    ensures { CellsTold book volume (lent out) result }
{
    number(engine::cells(book, volume, out))
}

#[unsafe(no_mangle)]
pub extern "C" fn aspen_blocks(book: &[u8], out: &mut [u8]) -> u16
    ensures { BlocksTold book (lent out) result }
{
    number(engine::blocks(book, out))
}
