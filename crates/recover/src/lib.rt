// Restore: a run of a backup's blocks in one call (document 02, K2).

#![tactic(auto)]

ghost use Rattle.std.specs.Prelude.{◌≡◌, ◌-◌, ◌≤◌, ◌<◌, length, get_or};
ghost use Rattle.std.proofs.lemmas.List.Edits.{sets};
ghost use Rattle.words.specs.Lists.{each};
ghost use Rattle.book.specs.Book.{volumes};
ghost use Rattle.book.specs.Layout.{told};
ghost use Rattle.book.specs.FormFacts.{FormFacts};
ghost use Rattle.model.specs.Pool.{pool_size};
ghost use Rattle.model.specs.Restore.{run_number};
ghost use Rattle.model.specs.Written.{Written};
ghost use Rattle.imager.specs.Imaging.{image_size};
ghost use Rattle.recover.specs.Promises.{Restored};
ghost use Rattle.recover.specs.Running.{mapped_at, Inside, blocks_from, restored_from};
ghost use Rattle.words.specs.Lent.{lent};
ghost use Rattle.words.specs.Refusals.{refusal_number};

use fields::header;
use imager::{Image, image_of};
use keeping::kept_backup;
use words::limits::MAX_LBNS;
use words::refusals::Refusal;
use words::{BLOCK_SIZE, UNMAPPED, put_bytes};

// Number 21, where the output has `room` bytes.
fn check_run(cells: u16, first: u16, many: u16, room: usize) -> Result<(), Refusal>
    ensures { refusal_number result ≡ run_number cells first many room }
{
    if (first as u32) + (many as u32) > (cells as u32) {
        return Err(Refusal::BadRun);
    }
    if room < (many as usize) * BLOCK_SIZE {
        return Err(Refusal::BadRun);
    }
    Ok(())
}

// Whether the image has a block at each LBN from `first` up to `end`. It looks at all of them, which the compiler does
// many at a time.
fn all_mapped(image: &Image, first: u16, end: u16) -> bool
    requires { (first ≤ end) × (end ≤ image_size) }
    ensures { result ≡ each (mapped_at image.now) first end }
{
    let mut good = true;
    for p in &image[first as usize..end as usize] {
        good = good & (*p != UNMAPPED);
    }
    good
}

// The image's blocks from LBN `first` up to `end`, one after the other, to the front of the output.
fn copy_run(pool: &[u8], image: &Image, first: u16, end: u16, out: &mut [u8])
    requires { Inside pool.now image.now first end (length out.old) }
    ensures { out.new ≡ sets out.old 0
        (blocks_from pool.now (λ l. get_or image.now l 0) first (end - first)) }
{
    let mut at = 0;
    for lbn in first..end {
        let from = (image[lbn as usize] as usize) * BLOCK_SIZE;
        let to = from + BLOCK_SIZE;
        put_bytes(out, at, &pool[from..to]);
        at += BLOCK_SIZE;
    }
}

// Numbers 21 and 18, and then the run, of what the volume had before its backups in the slots from `at` on. Nothing is
// written before the whole run is known to be mapped.
fn restore_before(
    book: &[u8],
    pool: &[u8],
    volume: u16,
    at: u16,
    first: u16,
    many: u16,
    out: &mut [u8],
) -> Result<(), Refusal>
    requires form_facts { FormFacts book.now }
    requires volume_lt_volumes { (volume < volumes) × (length pool.now ≡ pool_size (told book).sizes.n) }
    ensures { Written (restored_from (told book.entry) pool.now volume at first many
        (length out.old)) out.old (refusal_number result) out.new }
{
    check_run(header::cells(book), first, many, out.len())?;
    let mut image = [0u16; MAX_LBNS];
    image_of(book, volume, at, &mut image);
    let end = first + many;
    if !all_mapped(&image, first, end) {
        return Err(Refusal::NotMapped);
    }
    copy_run(pool, &image, first, end, out);
    Ok(())
}

// The output's first 512 × many bytes become what the reads one by one give.
pub fn restore(
    book: &[u8],
    pool: &[u8],
    volume: u16,
    number: u16,
    first: u16,
    many: u16,
    out: &mut [u8],
) -> Result<(), Refusal>
    ensures { Restored book pool volume number first many (lent out) (refusal_number result) }
{
    buffers::check(book, pool)?;
    let at = kept_backup(book, volume, number)?;
    restore_before(book, pool, volume, at, first, many, out)
}
