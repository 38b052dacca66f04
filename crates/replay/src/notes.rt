// What audit notes of one record: the cell that it leaves, and that its LBN was met.
ghost use Rattle.std.specs.Prelude.{◌≡◌, ◌+◌, ◌*◌, ◌<◌, eqb, get_or, set};
ghost use Rattle.book.specs.Book.{volumes};
ghost use Rattle.replay.specs.Table.{row_size};

use fields::offsets::VOLUMES;
use journal::record::Record;
use words::LBN;
use words::limits::{MAX_LBNS, Table};

// The cells of all maps, a row for each volume.
pub const CELLS: usize = VOLUMES * MAX_LBNS;

pub type Cells = [u16; CELLS];

// A stamp for each LBN.
pub type Stamps = [u16; MAX_LBNS];

// What the journal leaves: the cells of all maps, and the expiries that it asks for.
#[derive(Drop)]
pub struct Tables {
    pub cells: Cells,
    pub expiries: Table,
}

// Whether the cell was the change's before. It is the change's after now.
pub fn replace(cells: &mut Cells, v: u16, change: Record) -> bool
    requires { (v < volumes) × (change.lbn.0 < row_size) }
    ensures value { result ≡ eqb (get_or cells.old (v * row_size + change.lbn.0) 0) change.before.0 }
    ensures cells_after { cells.new ≡ set cells.old (v * row_size + change.lbn.0) change.after.0 }
{
    let at = (v as usize) * MAX_LBNS + (change.lbn.0 as usize);
    let same = cells[at] == change.before.0;
    cells[at] = change.after.0;
    same
}

// Whether the LBN had the stamp. It has it now.
pub fn meet(stamps: &mut Stamps, l: LBN, stamp: u16) -> bool
    requires { l.0 < row_size }
    ensures value { result ≡ eqb (get_or stamps.old l.0 0) stamp }
    ensures stamps_after { stamps.new ≡ set stamps.old l.0 stamp }
{
    let at = l.0 as usize;
    let met = stamps[at] == stamp;
    stamps[at] = stamp;
    met
}
