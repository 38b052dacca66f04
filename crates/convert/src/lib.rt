// The converters: a book of one layout, written in another (document 02, K3 and K4). All is checked before the output
// is written.

#![tactic(auto)]

ghost use Rattle.std.specs.Prelude.{◌≡◌};
ghost use Rattle.words.specs.Lists.{all};
ghost use Rattle.book.specs.Layout.{told, Holds};
ghost use Rattle.model.specs.Convert.{is_narrow};
ghost use Rattle.convert.specs.Promises.{size_or_number, WrittenInTwo, WrittenInOne, WrittenInThree};
ghost use Rattle.words.specs.Lent.{lent};
ghost use Rattle.words.specs.Refusals.{refusal_number, outcome_by};

use entries::entry;
use fields::header::blocks;
use fields::sizes::Sizes;
use refresh::refresh;
use rewriter::rewrite;
use words::PBN;
use words::refusals::Refusal;

// The largest count of layout 1.
const NARROW_COUNT: u16 = 255;

// Whether layout 1 has room for each count.
fn all_narrow(book: &[u8]) -> bool
    requires { Holds book.now }
    ensures { result ≡ all is_narrow (told book.entry).entries }
{
    let n = blocks(book);
    let mut good = true;
    for p in 0..n {
        good = good & (entry::count(book, PBN(p)) <= NARROW_COUNT);
    }
    good
}

// How long a book of layout `from` is in layout `to`, where the output has that much room.
fn room_for(book: &[u8], from: u16, to: u16, room: usize) -> Result<usize, Refusal>
    ensures { outcome_by (λ len. len) result ≡ size_or_number from to book.now room }
{
    form::check_as(book, from)?;
    let len = Sizes::of(book).size_as(to);
    if room < len {
        return Err(Refusal::ShortSpare);
    }
    Ok(len)
}

pub fn convert_1_2(book: &[u8], out: &mut [u8]) -> Result<(), Refusal>
    ensures { WrittenInTwo book (lent out) (refusal_number result) }
{
    room_for(book, 1, 2, out.len())?;
    rewrite(book, 1, 2, out);
    Ok(())
}

pub fn convert_2_1(book: &[u8], out: &mut [u8]) -> Result<(), Refusal>
    ensures { WrittenInOne book (lent out) (refusal_number result) }
{
    room_for(book, 2, 1, out.len())?;
    if !all_narrow(book) {
        return Err(Refusal::CountWide);
    }
    rewrite(book, 2, 1, out);
    Ok(())
}

// The book is written first, and its expiries are worked out there. What follows it in the output stays.
pub fn convert_2_3(book: &[u8], out: &mut [u8]) -> Result<(), Refusal>
    ensures { WrittenInThree book (lent out) (refusal_number result) }
{
    let len = room_for(book, 2, 3, out.len())?;
    rewrite(book, 2, 3, out);
    refresh(&mut out[..len]);
    Ok(())
}
