// A book's page on standard output.
use std::io;

// The page of the program tally.
pub fn page(rt: &impl Print, book: &[u8]) -> io::Result<()> {
    let mut page = [0u8; pages::PAGE_ROOM];
    let len = pages::tally(book, &mut page);
    rt.write_all(&page[..len])
}
