// Audit: whether the book is sound.
ghost use Rattle.auditor.specs.Promises.{Audited};
ghost use Rattle.words.specs.Lent.{lent};

use super::answer::told;

#[unsafe(no_mangle)]
pub extern "C" fn aspen_audit(book: &[u8], sound: &mut u16) -> u16
    ensures { Audited book (lent sound) result }
{
    told(engine::audit(book).map(u16::from), sound)
}
