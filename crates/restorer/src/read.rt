// Read: a block of a backup.
ghost use Rattle.std.specs.Prelude.{◌≡◌, ◌*◌, ◌<◌};
ghost use Rattle.words.specs.Blocks.{block_size};
ghost use Rattle.book.specs.Book.{volumes};
ghost use Rattle.book.specs.Layout.{told};
ghost use Rattle.book.specs.FormFacts.{FormFacts};
ghost use Rattle.model.specs.OnBytes.{read_bytes, read_number_bytes, read_place_bytes, block_after};
ghost use Rattle.restorer.specs.Reading.{sought_from, sought_bytes};
ghost use Rattle.words.specs.Refusals.{outcome_by};

use super::image::image_at;
use fields::header;
use keeping::kept_backup;
use words::refusals::Refusal;
use words::{BLOCK_SIZE, LBN, PBN, UNMAPPED};

// Numbers 17 and 18.
fn block_before(book: &[u8], v: u16, at: u16, lbn: LBN) -> Result<PBN, Refusal>
    requires form_facts { FormFacts book.now }
    requires v_lt_volumes { v < volumes }
    ensures { outcome_by (λ p. p.0) result ≡ sought_from (told book.entry) v at lbn.0 }
{
    if lbn.0 >= header::cells(book) {
        return Err(Refusal::BadLbn);
    }
    let p = image_at(book, v, at, lbn);
    if p.0 == UNMAPPED {
        return Err(Refusal::NotMapped);
    }
    Ok(p)
}

// All checks of a read, in their order.
fn locate(book: &[u8], pool: &[u8], volume: u16, number: u16, lbn: LBN) -> Result<PBN, Refusal>
    ensures { outcome_by (λ p. p.0) result ≡ sought_bytes book.now pool.now volume number lbn.0 }
{
    buffers::check(book, pool)?;
    let at = kept_backup(book, volume, number)?;
    block_before(book, volume, at, lbn)
}

// Where block p starts in the pool.
fn block_offset(p: PBN) -> usize
    ensures { result ≡ p.0 * block_size }
{
    (p.0 as usize) * BLOCK_SIZE
}

// The block of an accepted read is 512 bytes of the pool from here on.
pub fn offset(
    book: &[u8],
    pool: &[u8],
    volume: u16,
    number: u16,
    lbn: LBN,
) -> Result<usize, Refusal>
    ensures { outcome_by (λ at. at) result ≡ read_place_bytes book.now pool.now volume number lbn.0 }
{
    let p = locate(book, pool, volume, number, lbn)?;
    Ok(block_offset(p))
}

// The block as a part of the lent pool.
pub fn block<'a>(
    book: &[u8],
    pool: &'a [u8],
    volume: u16,
    number: u16,
    lbn: LBN,
) -> Result<&'a [u8], Refusal>
    ensures { outcome_by (λ part. part.now) result ≡ read_bytes book.now pool.now volume number lbn.0 }
{
    let p = locate(book, pool, volume, number, lbn)?;
    let at = block_offset(p);
    Ok(&pool[at..at + BLOCK_SIZE])
}

// The same, empty on a refusal (document 01, "The calls").
pub fn read<'a>(book: &[u8], pool: &'a [u8], volume: u16, number: u16, lbn: LBN) -> &'a [u8]
    ensures { result.now ≡ block_after (read_bytes book.now pool.now volume number lbn.0) }
{
    match block(book, pool, volume, number, lbn) {
        Ok(part) => part,
        Err(_) => &pool[..0],
    }
}

// The number that `read` with the same arguments is refused by, or 0.
pub fn read_number(book: &[u8], pool: &[u8], volume: u16, number: u16, lbn: LBN) -> u16
    ensures { result ≡ read_number_bytes book.now pool.now volume number lbn.0 }
{
    match locate(book, pool, volume, number, lbn) {
        Ok(_) => 0,
        Err(refusal) => u16::from(refusal),
    }
}
