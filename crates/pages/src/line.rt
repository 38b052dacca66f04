// Numbers in decimal, and lines of a word and a number. As every writer of a section they answer the offset past it.
ghost use Rattle.std.specs.Prelude.{◌+◌, ◌≤◌, length};
ghost use Rattle.words.specs.Laying.{Stored};
ghost use Rattle.pages.specs.Tally.{decimal, line};

use words::put_bytes;

const BLANK: u8 = 32;

const NEWLINE: u8 = 10;

// The digit 0; the others follow it.
const ZERO: u8 = 48;

fn put_decimal(page: &mut [u8], at: usize, n: u32) -> usize
    requires { at + length (decimal n) ≤ length page.old }
    ensures { Stored page.old at (decimal n) page.new result }
{
    if n < 10 {
        page[at] = ZERO + n as u8;
        return at + 1;
    }
    let last = put_decimal(page, at, n / 10);
    page[last] = ZERO + (n % 10) as u8;
    last + 1
}

pub fn put_line(page: &mut [u8], at: usize, word: &[u8], n: u32) -> usize
    requires { at + length (line word.now n) ≤ length page.old }
    ensures { Stored page.old at (line word.now n) page.new result }
{
    put_bytes(page, at, word);
    let blank = at + word.len();
    page[blank] = BLANK;
    let end = put_decimal(page, blank + 1, n);
    page[end] = NEWLINE;
    end + 1
}
