// Audit: held fingerprints differ. The index is built from the last block down, and each held block is asked for among
// those above before it is linked.
ghost use Rattle.std.specs.Prelude.{◌≡◌};
ghost use Rattle.book.specs.Layout.{told};
ghost use Rattle.book.specs.FormFacts.{FormFacts};
ghost use Rattle.model.specs.Audit.{prints_sound};

use fields::header::blocks;
use finder::Index;
use index::{clear, link_apart};
use words::PBN;

pub fn prints_sound(book: &[u8]) -> bool
    requires { FormFacts book.now }
    ensures { result ≡ prints_sound (told book.entry) }
{
    let mut index = Index::new();
    clear(book, &mut index);
    let mut good = true;
    for p in (0..blocks(book)).rev() {
        good = good & link_apart(book, &mut index, PBN(p));
    }
    good
}
