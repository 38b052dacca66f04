// Steps 3 and 4 of a change: the block that its cell named is counted down, the one that it names now up.
ghost use Rattle.std.specs.Prelude.{◌≡◌, true, ◌⊎◌, ◌<◌, eqb, length};
ghost use Rattle.words.specs.Blocks.{unmapped};
ghost use Rattle.words.specs.Choice.{when◌then◌else◌};
ghost use Rattle.words.specs.Lists.{all};
ghost use Rattle.book.specs.Book.{volumes, entry_at, cell_at};
ghost use Rattle.book.specs.Form.{pbn_ok};
ghost use Rattle.book.specs.Layout.{book_of, Holds, Is};
ghost use Rattle.model.specs.Backup.{name_block};
ghost use Rattle.mover.specs.Stepping.{LoweredBy, MovedBy};
ghost use Rattle.words.specs.Lent.{lent};

use entries::entry;
use fields::map;
use journal::record;
use placer::placing::Tally;
use words::limits::MAX_COUNT;
use words::refusals::Refusal;
use words::{LBN, PBN, UNMAPPED};

// The entries that a change touches: its block's, and that of the before where there is one.
fn touches(before: PBN) -> u16
    ensures { result ≡ (when eqb before.0 unmapped then 1 else 2) }
{
    if before.0 == UNMAPPED { 1 } else { 2 }
}

// The before's count falls by 1, and it is kept until this day at least. Not where its count is 0.
pub fn lower(work: &mut [u8], before: PBN, until: u16) -> Result<(), Refusal>
    requires holds { Holds work.old }
    requires fact { (before.0 < (book_of work.old).sizes.n) ⊎ (before.0 ≡ unmapped) }
    ensures { LoweredBy (lent work) before.0 until result }
{
    if before.0 == UNMAPPED {
        return Ok(());
    }
    let count = entry::count(work, before);
    if count == 0 {
        return Err(Refusal::CountZero);
    }
    entry::set_count(work, before, count - 1);
    if entry::expiry(work, before) < until {
        entry::set_expiry(work, before, until);
    }
    Ok(())
}

// The block's count rises by 1, the map names it, a record is added.
fn name_block(work: &mut [u8], v: u16, lbn: LBN, before: PBN, p: PBN, count: u16)
    requires holds { Holds work.old }
    requires v_lt_volumes { (v < volumes) × (lbn.0 < (book_of work.old).sizes.l) × (p.0 < (book_of work.old).sizes.n) }
    requires work_len_bound { (length (book_of work.old).records < (book_of work.old).sizes.j)
        × (before.0 ≡ cell_at (book_of work.old).maps v lbn.0) }
    requires count_value { (count ≡ (entry_at (book_of work.old).entries p.0).count) × (count < 65535) }
    ensures { Is work.new
        (name_block v lbn.0 p.0 (book_of work.old).entries (book_of work.old)) }
{
    entry::set_count(work, p, count + 1);
    map::set_cell(work, v, lbn, p);
    record::append_record(work, lbn, before, p);
}

// Volume v's cell at an LBN goes to block p. It answers what is counted then.
pub fn move_to(
    work: &mut [u8],
    v: u16,
    lbn: LBN,
    p: PBN,
    until: u16,
    t: Tally,
) -> Result<Tally, Refusal>
    requires holds { Holds work.old }
    requires v_lt_volumes { (v < volumes) × (lbn.0 < (book_of work.old).sizes.l) × (p.0 < (book_of work.old).sizes.n) }
    requires work_len_bound { (length (book_of work.old).records < (book_of work.old).sizes.j) × (t.touched < 65000) }
    requires work_value { all (all (pbn_ok (book_of work.old).sizes.n)) (book_of work.old).maps ≡ true }
    ensures { MovedBy (lent work) v lbn.0 p.0 until t result }
{
    let before = map::cell(work, v, lbn);
    lower(work, before, until)?;
    let count = entry::count(work, p);
    // Only a damaged book has such a count: eight maps of 1,024 cells name a block 8,192 times at most.
    if count == MAX_COUNT {
        return Err(Refusal::CountFull);
    }
    name_block(work, v, lbn, before, p, count);
    let taken = t.taken;
    let touched = t.touched + touches(before);
    Ok(Tally { taken, touched })
}
