// A call in bytes: its head, and whether it is one.
ghost use Rattle.std.specs.Prelude.{◌≡◌, true, ◌+◌, ◌<◌, ◌≤◌, length, get_or};
ghost use Rattle.calls.specs.Coding.{head_size, data_size, call_size, unused_zero, unused_zero_at, is_call};
ghost use Rattle.heads.specs.Kinds.{code};

use super::kind::Kind;
use words::u16_at;

pub const HEAD_SIZE: usize = 14;

// How many bytes of data the call at `at` has.
pub fn data_size(calls: &[u8], at: usize) -> usize
    requires { at + head_size ≤ length calls.now }
    ensures { (result ≡ data_size calls.now at) × (result ≤ 4294967295) }
{
    u16_at(calls, at + 10) as usize + u16_at(calls, at + 12) as usize * 65536
}

// What the kind doesn't use is zero.
fn unused_zero(kind: Kind, a: u16, b: u16, c: u16, d: u16, size: usize) -> bool
    ensures { result ≡ unused_zero (code kind) a b c d size }
{
    match kind {
        Kind::Enrol => (c == 0) & (d == 0) & (size == 0),
        Kind::Backup => (c == 0) & (d == 0),
        Kind::Collect => (b == 0) & (c == 0) & (d == 0) & (size == 0),
        Kind::Read => (d == 0) & (size == 0),
        Kind::Audit => (a == 0) & (b == 0) & (c == 0) & (d == 0) & (size == 0),
        Kind::Restore => size == 0,
        Kind::Retire => (c == 0) & (d == 0) & (size == 0),
    }
}

fn unused_zero_at(calls: &[u8], at: usize) -> bool
    requires { at + head_size ≤ length calls.now }
    ensures { result ≡ unused_zero_at calls.now at }
{
    let a = u16_at(calls, at + 2);
    let b = u16_at(calls, at + 4);
    let c = u16_at(calls, at + 6);
    let d = u16_at(calls, at + 8);
    let size = data_size(calls, at);
    match Kind::try_from(calls[at]) {
        Ok(kind) => unused_zero(kind, a, b, c, d, size),
        Err(_) => false,
    }
}

// Whether a call stands at `at`, head and data.
pub fn is_call(calls: &[u8], at: usize) -> bool
    requires { at ≤ length calls.now }
    ensures { result ≡ is_call calls.now at }
{
    if calls.len() - at < HEAD_SIZE {
        return false;
    }
    if calls[at + 1] != 0 {
        return false;
    }
    if !unused_zero_at(calls, at) {
        return false;
    }
    data_size(calls, at) <= calls.len() - at - HEAD_SIZE
}

// The kind of the call at `at`.
pub fn kind_of(calls: &[u8], at: usize) -> Kind
    requires { is_call calls.now at ≡ true }
    ensures { code result ≡ get_or calls.now at 0 }
{
    let Ok(kind) = Kind::try_from(calls[at]) else {
        unreachable!()
    };
    kind
}

// The offset past the call at `at`.
pub fn call_end(calls: &[u8], at: usize) -> usize
    requires { is_call calls.now at ≡ true }
    ensures { (result ≡ at + call_size calls.now at) × (at < result) × (result ≤ length calls.now) }
{
    at + HEAD_SIZE + data_size(calls, at)
}
