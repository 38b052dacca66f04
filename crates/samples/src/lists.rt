// Change lists of sample blocks, as the aid writes them.
ghost use Rattle.std.specs.Prelude.{◌<◌, ◌≤◌, IfOk, length};

use super::blocks::paint;
use words::refusals::Refusal;
use words::{BLOCK_SIZE, PRINT_SIZE};

// The tag of an LBN that doesn't change.
pub const UNCHANGED: u8 = b'-';

// The most LBNs that a sample volume has.
const MOST: usize = 32;

// The bytes of a list of all of them: one run.
pub const LONGEST: usize = 6 + (PRINT_SIZE + BLOCK_SIZE) * MOST;

// What a volume changes: for each LBN the tag of its new block, under the fingerprint of its other tag.
#[derive(Clone, Copy)]
pub struct Changes<'a> {
    pub prints: &'a [u8],
    pub blocks: &'a [u8],
    pub slope: u8,
}

// The marks say of each LBN whether it changes.
fn mark(marks: &mut [u8], tags: &[u8]) {
    for (mark, tag) in marks.iter_mut().zip(tags) {
        *mark = u8::from(*tag != UNCHANGED);
    }
}

// The elements of `size` bytes, one for each tag, as far as there is room.
fn paint_each(bytes: &mut [u8], size: usize, tags: &[u8], slope: u8)
    requires { 0 < size }
{
    for (element, tag) in bytes.chunks_exact_mut(size).zip(tags) {
        paint(element, *tag, slope);
    }
}

// The list of a volume with these changes, to the front of `list`. It answers the list's length.
pub fn write_list(list: &mut [u8], changes: Changes<'_>) -> Result<usize, Refusal>
    ensures { IfOk result (λ len. len ≤ length list.new) }
{
    let l = changes.blocks.len();
    if l > MOST {
        return Err(Refusal::BadInput);
    }
    let mut marks = [0u8; MOST];
    let mut prints = [0u8; PRINT_SIZE * MOST];
    let mut image = [0u8; BLOCK_SIZE * MOST];
    mark(&mut marks, changes.blocks);
    paint_each(&mut prints, PRINT_SIZE, changes.prints, changes.slope);
    paint_each(&mut image, BLOCK_SIZE, changes.blocks, changes.slope);
    writer::write_list(
        l as u16,
        &marks[..l],
        &prints[..PRINT_SIZE * l],
        &image[..BLOCK_SIZE * l],
        list,
    )
}
