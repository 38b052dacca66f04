// The bucket of a fingerprint.
ghost use Rattle.std.specs.Prelude.{◌≡◌, ◌<◌, length};
ghost use Rattle.words.specs.Blocks.{print_size};
ghost use Rattle.finder.specs.Bucket.{table_size, bucket_of};

use words::limits::MAX_BLOCKS;
use words::{PRINT_SIZE, u16_at};

// As many as the largest pool has blocks.
const BUCKETS: u64 = MAX_BLOCKS as u64;

// By both ends: clients put the clinic's salt at one of them. Times 2^32 over the golden ratio, so that fingerprints
// that differ little at one end still spread. Cheap, since a backup asks it for every held block.
pub fn bucket_of(print: &[u8]) -> usize
    requires { length print.now ≡ print_size }
    ensures { (result ≡ bucket_of print.now) × (result < table_size) }
{
    let first = u16_at(print, 0) as u64;
    let last = u16_at(print, PRINT_SIZE - 2) as u64;
    ((first + last * 65536) * 2654435769 / 1048576 % BUCKETS) as usize
}
