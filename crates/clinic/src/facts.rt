// What the book has: blocks, counts, expiries, the cursor, and whether it is sound.
ghost use Rattle.std.specs.Prelude.{◌≡◌, true};
ghost use Rattle.book.specs.Layout.{Holds};

use crate::calls::{CELLS, Letters};
use entries::entry;
use fields::{header, map};
use samples::UNCHANGED;
use std::io;
use words::limits::LAST_VOLUME;
use words::{LBN, PBN, UNMAPPED};

// The readers are asked only of a book in form.
fn in_form(book: &[u8]) -> bool
    ensures { result ≡ true → Holds book.now }
{
    form::check(book).is_ok()
}

fn cell(rt: &impl Print, lbn: u16, block: PBN) -> io::Result<()> {
    if block.0 == UNMAPPED {
        return print!(rt; "; LBN {lbn} unmapped");
    }
    print!(rt; "; LBN {lbn} in block {}", block.0)
}

// The blocks of the LBNs that the list changes.
pub fn cells(rt: &impl Print, book: &[u8], volume: u16, tags: &Letters) -> io::Result<()> {
    if volume > LAST_VOLUME {
        return Ok(());
    }
    if !in_form(book) {
        return Ok(());
    }
    for lbn in 0..header::cells(book).min(CELLS) {
        if tags[usize::from(lbn)] != UNCHANGED {
            cell(rt, lbn, map::cell(book, volume, LBN(lbn)))?;
        }
    }
    Ok(())
}

// Block 0 is the one that the cases follow.
fn block(rt: &impl Print, book: &[u8]) -> io::Result<()>
    requires { Holds book.now }
{
    if header::blocks(book) == 0 {
        return Ok(());
    }
    let count = entry::count(book, PBN(0));
    let expiry = entry::expiry(book, PBN(0));
    print!(rt; "; block 0 has count {count}, expiry {expiry}")
}

fn audit(rt: &impl Print, book: &[u8]) -> io::Result<()> {
    match engine::audit(book) {
        Ok(true) => println!(rt; "; audit yes"),
        Ok(false) => println!(rt; "; audit no"),
        Err(refusal) => println!(rt; "; audit refused {}", u16::from(refusal)),
    }
}

// The end of a line.
pub fn state(rt: &impl Print, book: &[u8]) -> io::Result<()> {
    if in_form(book) {
        block(rt, book)?;
        print!(rt; "; cursor {}", header::cursor(book))?;
    } else {
        print!(rt; "; out of form")?;
    }
    audit(rt, book)
}
