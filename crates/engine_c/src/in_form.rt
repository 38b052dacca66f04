// Form: whether the book is in form, and if not, by which number it is refused.
ghost use Rattle.std.specs.Prelude.{◌≡◌};
ghost use Rattle.book.specs.Form.{form_number};

use super::answer::number;

#[unsafe(no_mangle)]
pub extern "C" fn aspen_form(book: &[u8]) -> u16
    ensures { result ≡ form_number book.now }
{
    number(engine::check(book))
}
