// Bytes that are zero.
ghost use Rattle.std.specs.Prelude.{◌≤◌, ◌≡◌, length};
ghost use Rattle.sections.specs.Checks.{zeros_in};

// The bytes from `from` up to `to` are zero. It never leaves early, so that many bytes are compared at once.
pub fn zeros(b: &[u8], from: usize, to: usize) -> bool
    requires { (from ≤ to) × (to ≤ length b.now) }
    ensures { result ≡ zeros_in b.now from to }
{
    let mut clear = true;
    for x in &b[from..to] {
        clear = clear & (*x == 0);
    }
    clear
}
