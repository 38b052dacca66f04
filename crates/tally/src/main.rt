// Reads a book from standard input and prints its page (document 01, "the program tally").

#![tactic(auto)]

use input::read_full;
use std::io;

fn main(rt: HostRuntime) -> io::Result<()> {
    // One byte more than the longest book, so that longer input is seen.
    let mut input = [0u8; 65537];
    let mut page = [0u8; pages::PAGE_ROOM];
    let n = read_full(&mut rt.reader(), &mut input)?;
    let len = pages::tally(&input[..n], &mut page);
    rt.write_all(&page[..len])
}
