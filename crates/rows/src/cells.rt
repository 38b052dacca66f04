// A volume's current map: the PBN of each LBN, 2 bytes each.
ghost use Rattle.rows.specs.Promises.{CellsTold};
ghost use Rattle.words.specs.Lent.{lent};
ghost use Rattle.words.specs.Refusals.{refusal_number};

use fields::map;
use figures::enrolled;
use words::put_bytes;
use words::refusals::Refusal;

pub fn cells(book: &[u8], volume: u16, out: &mut [u8]) -> Result<(), Refusal>
    ensures { CellsTold book volume (lent out) (refusal_number result) }
{
    enrolled::check(book, volume)?;
    let row = map::row(book, volume);
    if out.len() < row.len() {
        return Err(Refusal::ShortOutput);
    }
    put_bytes(out, 0, row);
    Ok(())
}
