// What the layers share: numbers of two bytes, runs of bytes, and the two kinds of block number.

#![tactic(auto)]

ghost use Rattle.std.specs.Prelude.{◌≡◌, [], ◌∷◌, ◌+◌, ◌≤◌, ◌<◌, length, replicate};
ghost use Rattle.std.proofs.lemmas.List.Edits.{sets};
ghost use Rattle.words.specs.Numbers.{two, num, put};
ghost use Rattle.words.specs.Sections.{flat};
ghost use Rattle.words.specs.Lists.{same};

pub mod limits;
pub mod refusals;

// A block of an aid's volume. Never taken for a PBN.
#[derive(Clone, Copy)]
pub struct LBN(pub u16);

// A block of the pool, or unmapped. Never taken for an LBN.
#[derive(Clone, Copy)]
pub struct PBN(pub u16);

pub const UNMAPPED: u16 = 65535;

// The sizes of a block and of a fingerprint, in bytes.
pub const BLOCK_SIZE: usize = 512;

pub const PRINT_SIZE: usize = 16;

// The number of two bytes that stands at `at`.
pub fn u16_at(b: &[u8], at: usize) -> u16
    requires { at + 1 < length b.now }
    ensures { result ≡ num b.now at }
{
    u16::from_le_bytes([b[at], b[at + 1]])
}

pub fn put_u16(b: &mut [u8], at: usize, v: u16)
    requires { at + 1 < length b.old }
    ensures { b.new ≡ put b.old at v }
{
    let [low, high] = v.to_le_bytes();
    b[at] = low;
    b[at + 1] = high;
}

// Three numbers, one after the other.
pub fn put_three(b: &mut [u8], at: usize, x: u16, y: u16, z: u16)
    requires { at + 6 ≤ length b.old }
    ensures { b.new ≡ sets b.old at (flat two (x ∷ y ∷ z ∷ [])) }
{
    put_u16(b, at, x);
    put_u16(b, at + 2, y);
    put_u16(b, at + 4, z);
}

// The bytes of src from `at` on.
pub fn put_bytes(b: &mut [u8], at: usize, src: &[u8])
    requires { at + length src.now ≤ length b.old }
    ensures { b.new ≡ sets b.old at src.now }
{
    for i in 0..src.len() {
        b[at + i] = src[i];
    }
}

// n bytes v from `at` on.
pub fn fill(b: &mut [u8], at: usize, n: usize, v: u8)
    requires { at + n ≤ length b.old }
    ensures { b.new ≡ sets b.old at (replicate n v) }
{
    let to = at + n;
    b[at..to].fill(v);
}

// Two runs of bytes are the same.
pub fn same_bytes(a: &[u8], b: &[u8]) -> bool
    ensures { result ≡ same a.now b.now }
{
    a == b
}
