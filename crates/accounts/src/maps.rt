// The maps, once. Each cell is what the records leave there, and counts for the block that it names.
ghost use Rattle.std.specs.Prelude.{[], ◌∷◌, ◌*◌, ◌<◌, get_or};
ghost use Rattle.book.specs.Book.{volumes};
ghost use Rattle.book.specs.FormFacts.{FormFacts};
ghost use Rattle.accounts.specs.Passes.{TakesRow, TakesMaps};
ghost use Rattle.accounts.specs.Counts.{Counted};
ghost use Rattle.accounts.specs.MapsTaken.{AtMost};
ghost use Rattle.due.specs.Pool.{pool_blocks};
ghost use Rattle.replay.specs.Table.{row_size};
ghost use Rattle.words.specs.Lent.{lent};

use fields::header;
use fields::map::cell;
use replay::notes::Cells;
use words::limits::{LAST_VOLUME, MAX_BLOCKS, MAX_LBNS, Table};
use words::{LBN, PBN};

// The block's count rises by 1; unmapped has none.
fn count_one(counts: &mut Table, p: PBN)
    requires { p.0 < pool_blocks → get_or counts.old p.0 0 < 65535 }
    ensures { Counted counts.old (p.0 ∷ []) counts.new }
{
    let at = p.0 as usize;
    if at >= MAX_BLOCKS {
        return;
    }
    counts[at] = counts[at] + 1;
}

fn take_row(book: &[u8], cells: &Cells, counts: &mut Table, v: u16) -> bool
    requires form_facts { FormFacts book.now }
    requires v_lt_volumes { (v < volumes) × AtMost (v * row_size) counts.old }
    ensures { TakesRow book cells (lent counts) v result }
{
    let row = (v as usize) * MAX_LBNS;
    let wide = header::cells(book);
    let mut good = true;
    for l in 0..wide {
        let named = cell(book, v, LBN(l));
        good = good & (named.0 == cells[row + (l as usize)]);
        count_one(counts, named);
    }
    good
}

// The counts start at 0, whatever was there.
pub fn maps_match(book: &[u8], cells: &Cells, counts: &mut Table) -> bool
    requires { FormFacts book.now }
    ensures { TakesMaps book cells (lent counts) result }
{
    *counts = [0u16; MAX_BLOCKS];
    let mut good = true;
    for v in 0..=LAST_VOLUME {
        let same = take_row(book, cells, counts, v);
        good = good & same;
    }
    good
}
