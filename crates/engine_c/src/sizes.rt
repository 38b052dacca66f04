// The numbers that a host shows of a book: its sizes, how much of it is used, and what a volume has.
ghost use Rattle.figures.specs.Promises.{SizesTold, UsedTold, VolumeTold};
ghost use Rattle.words.specs.Lent.{lent};

#[unsafe(no_mangle)]
pub extern "C" fn aspen_sizes(
    book: &[u8],
    blocks: &mut u16,
    cells: &mut u16,
    slots: &mut u16,
    records: &mut u16,
) -> u16
    ensures { SizesTold book (lent blocks) (lent cells) (lent slots) (lent records) result }
{
    match engine::sizes(book) {
        Ok(told) => {
            *blocks = told.n;
            *cells = told.l;
            *slots = told.s;
            *records = told.j;
            0
        }
        Err(refusal) => u16::from(refusal),
    }
}

#[unsafe(no_mangle)]
pub extern "C" fn aspen_used(book: &[u8], slots: &mut u16, records: &mut u16, day: &mut u16) -> u16
    ensures { UsedTold book (lent slots) (lent records) (lent day) result }
{
    match engine::used(book) {
        Ok(told) => {
            *slots = told.slots;
            *records = told.records;
            *day = told.day;
            0
        }
        Err(refusal) => u16::from(refusal),
    }
}

#[unsafe(no_mangle)]
pub extern "C" fn aspen_volume(
    book: &[u8],
    volume: u16,
    retention: &mut u16,
    backups: &mut u16,
    retired: &mut u16,
) -> u16
    ensures { VolumeTold book volume (lent retention) (lent backups) (lent retired) result }
{
    match engine::volume(book, volume) {
        Ok(told) => {
            *retention = told.retention;
            *backups = told.backups;
            *retired = told.retired;
            0
        }
        Err(refusal) => u16::from(refusal),
    }
}
