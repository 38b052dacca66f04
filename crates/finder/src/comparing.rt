// Two fingerprints, compared from the far end.
ghost use Rattle.std.specs.Prelude.{◌≡◌, length};
ghost use Rattle.words.specs.Blocks.{print_size};
ghost use Rattle.finder.specs.FarEnd.{agreeing};

use words::PRINT_SIZE;

// How many bytes agree from the last one down, up to the first that differs. Salted fingerprints begin alike, so most
// comparisons end at the first byte that they look at.
pub fn agreeing(a: &[u8], b: &[u8]) -> usize
    requires { (length a.now ≡ print_size) × (length b.now ≡ print_size) }
    ensures { result ≡ agreeing a.now b.now }
{
    for i in (0..PRINT_SIZE).rev() {
        if a[i] != b[i] {
            return PRINT_SIZE - 1 - i;
        }
    }
    PRINT_SIZE
}
