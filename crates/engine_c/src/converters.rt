// The converters: a book of one layout, written in another (document 02, K3 and K4).
ghost use Rattle.convert.specs.Promises.{WrittenInTwo, WrittenInOne, WrittenInThree};
ghost use Rattle.words.specs.Lent.{lent};

use super::answer::number;

#[unsafe(no_mangle)]
pub extern "C" fn aspen_convert_1_2(book: &[u8], out: &mut [u8]) -> u16
    ensures { WrittenInTwo book (lent out) result }
{
    number(engine::convert_1_2(book, out))
}

#[unsafe(no_mangle)]
pub extern "C" fn aspen_convert_2_1(book: &[u8], out: &mut [u8]) -> u16
    ensures { WrittenInOne book (lent out) result }
{
    number(engine::convert_2_1(book, out))
}

#[unsafe(no_mangle)]
pub extern "C" fn aspen_convert_2_3(book: &[u8], out: &mut [u8]) -> u16
    ensures { WrittenInThree book (lent out) result }
{
    number(engine::convert_2_3(book, out))
}
