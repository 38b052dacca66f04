// Backup: a change list becomes a backup of a volume.
ghost use Rattle.intake.specs.Promises.{BackedUp};
ghost use Rattle.words.specs.Lent.{lent};

#[unsafe(no_mangle)]
pub extern "C" fn aspen_backup(
    book: &mut [u8],
    pool: &mut [u8],
    spare: &mut [u8],
    volume: u16,
    day: u16,
    list: &[u8],
    number: &mut u16,
    taken: &mut u16,
    touched: &mut u16,
) -> u16
    ensures { BackedUp (lent book) (lent pool) (lent spare) volume day list (lent number) (lent taken) (lent touched) result }
{
    match engine::backup(book, pool, spare, volume, day, list) {
        Ok(told) => {
            *number = told.number;
            *taken = told.taken;
            *touched = told.touched;
            0
        }
        Err(refusal) => u16::from(refusal),
    }
}
