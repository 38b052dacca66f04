// The cells of a volume that is retired: how many are mapped, and one after the other cleared.
ghost use Rattle.std.specs.Prelude.{◌≡◌, true, ◌+◌, ◌<◌, ◌≤◌, length};
ghost use Rattle.words.specs.Blocks.{unmapped};
ghost use Rattle.words.specs.Lists.{all};
ghost use Rattle.book.specs.Book.{volumes, cell_at};
ghost use Rattle.book.specs.Form.{pbn_ok};
ghost use Rattle.book.specs.Layout.{book_of, told, Holds};
ghost use Rattle.model.specs.Retire.{mapped_cells};
ghost use Rattle.retirer.specs.Clearing.{ClearedBy, AllClearedBy};
ghost use Rattle.words.specs.Lent.{lent};

use fields::{header, map};
use journal::record;
use mover::moving::lower;
use words::refusals::Refusal;
use words::{LBN, PBN, UNMAPPED};

// How many cells of volume v's map name a block.
pub fn mapped_cells(book: &[u8], v: u16) -> u16
    requires holds { Holds book.now }
    requires v_lt_volumes { v < volumes }
    ensures { result ≡ mapped_cells (told book.entry) v }
{
    let l = header::cells(book);
    let mut count = 0;
    for lbn in 0..l {
        let p = map::cell(book, v, LBN(lbn));
        if p.0 != UNMAPPED {
            count += 1;
        }
    }
    count
}

// A mapped cell: step 3 of a change, then the map names no block there, and a record is added. Not where the block's
// count is 0.
fn clear_cell(work: &mut [u8], v: u16, lbn: LBN, until: u16) -> Result<(), Refusal>
    requires holds { Holds work.old }
    requires v_lt_volumes { (v < volumes) × (lbn.0 < (book_of work.old).sizes.l) }
    requires work_value { all (all (pbn_ok (book_of work.old).sizes.n)) (book_of work.old).maps ≡ true }
    requires work_len_bound { (cell_at (book_of work.old).maps v lbn.0 ≡ unmapped → ⊥)
        → length (book_of work.old).records < (book_of work.old).sizes.j }
    ensures { ClearedBy (lent work) v lbn.0 until result }
{
    let before = map::cell(work, v, lbn);
    if before.0 == UNMAPPED {
        return Ok(());
    }
    lower(work, before, until)?;
    map::set_cell(work, v, lbn, PBN(UNMAPPED));
    record::append_record(work, lbn, before, PBN(UNMAPPED));
    Ok(())
}

// All cells by LBN; the first that can't be cleared leaves early.
pub fn clear_cells(work: &mut [u8], v: u16, until: u16) -> Result<(), Refusal>
    requires holds { Holds work.old }
    requires v_lt_volumes { v < volumes }
    requires work_value { all (all (pbn_ok (book_of work.old).sizes.n)) (book_of work.old).maps ≡ true }
    requires v_len_bound { length (book_of work.old).records + mapped_cells (book_of work.old) v ≤ (book_of work.old).sizes.j }
    ensures { AllClearedBy (lent work) v until result }
{
    let l = header::cells(work);
    for lbn in 0..l {
        clear_cell(work, v, LBN(lbn), until)?;
    }
    Ok(())
}
