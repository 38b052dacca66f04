// Counting: how many blocks are held and waiting, and how many references point to them.
ghost use Rattle.counter.specs.Counted.{CountedUp};
ghost use Rattle.words.specs.Lent.{lent};

#[unsafe(no_mangle)]
pub extern "C" fn aspen_count(
    book: &[u8],
    blocks: &mut u16,
    held: &mut u16,
    waiting: &mut u16,
    references: &mut u32,
) -> u16
    ensures { CountedUp book (lent blocks) (lent held) (lent waiting) (lent references) result }
{
    match engine::count(book) {
        Ok(told) => {
            *blocks = told.blocks;
            *held = told.held;
            *waiting = told.waiting;
            *references = told.references;
            0
        }
        Err(refusal) => u16::from(refusal),
    }
}
