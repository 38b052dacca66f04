// Whether bytes are a change list (document 01, "Change list", number 8), and what its pairs come to.

#![tactic(auto)]

ghost use Rattle.std.specs.Prelude.{◌≡◌, ◌+◌, ◌*◌, ◌≤◌, length};
ghost use Rattle.runs.specs.Changes.{pair_count, pair_fits, pair_size};
ghost use Rattle.pairs.specs.Answers.{counted_of, checked_of};

use words::limits::MAX_RUN;
use words::{BLOCK_SIZE, PRINT_SIZE, u16_at};

pub const PAIR_SIZE: usize = 4;

// The numbers of a list that is well formed: E and n.
#[derive(Clone, Copy)]
pub struct Shape {
    pub pairs: u16,
    pub changes: u16,
}

// Whether a pair is of some blocks and not too many, starts at `end` or later, and doesn't pass l.
fn pair_fits(end: usize, first: usize, many: usize, l: usize) -> bool
    requires { (first ≤ 65535) × (many ≤ 65535) }
    ensures { result ≡ pair_fits l end first many }
{
    if many == 0 {
        return false;
    }
    if many > MAX_RUN {
        return false;
    }
    if first < end {
        return false;
    }
    first + many <= l
}

// The number of changed blocks, from pairs that lie within the bytes, unless one of them doesn't fit.
fn count_changes(list: &[u8], pairs: usize, l: usize) -> Option<usize>
    requires { (pairs ≡ pair_count list.now) × (2 + pairs * pair_size ≤ length list.now) × (l ≤ 65535) }
    ensures { result ≡ counted_of l list.now }
{
    let mut end = 0;
    let mut changes = 0;
    for i in 0..pairs {
        let first = u16_at(list, 2 + i * PAIR_SIZE) as usize;
        let many = u16_at(list, 2 + i * PAIR_SIZE + 2) as usize;
        if !pair_fits(end, first, many, l) {
            return None;
        }
        end = first + many;
        changes += many;
    }
    Some(changes)
}

// The numbers of the list, where the bytes are a change list for volumes of l blocks.
pub fn check(list: &[u8], l: u16) -> Option<Shape>
    ensures { result ≡ checked_of l list.now }
{
    if list.len() < 2 {
        return None;
    }
    let pairs = u16_at(list, 0);
    let prints_from = 2 + pairs as usize * PAIR_SIZE;
    if list.len() < prints_from {
        return None;
    }
    let changes = count_changes(list, pairs as usize, l as usize)?;
    if list.len() != prints_from + changes * (PRINT_SIZE + BLOCK_SIZE) {
        return None;
    }
    Some(Shape {
        pairs,
        changes: changes as u16,
    })
}
