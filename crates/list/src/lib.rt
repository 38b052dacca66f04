// The changes of a list that was checked (document 01, "Change list"): a cursor over them, fingerprint and block of
// change i.

#![tactic(auto)]

ghost use Rattle.std.specs.Prelude.{◌≡◌, ◌+◌, ◌*◌, ◌<◌, MatchOption};
ghost use Rattle.words.specs.Sections.{part};
ghost use Rattle.runs.specs.Changes.{change_at, prints_from, list_number};
ghost use Rattle.words.specs.Blocks.{print_size};
ghost use Rattle.list.specs.Readers.{Whole, Whole-prop, index_of, Valid, StandsAt};

use pairs::{PAIR_SIZE, Shape};
use words::{BLOCK_SIZE, LBN, PRINT_SIZE, u16_at};

// Between two changes: the pair that the next change is in, and how many of that pair's blocks were passed.
#[derive(Clone, Copy)]
pub struct Cursor {
    pub pair: u16,
    pub within: u16,
}

// A change list, with the numbers that its check came to.
#[derive(Clone, Copy)]
pub struct ChangeList<'a> {
    pub bytes: &'a [u8],
    pub shape: Shape,
    pub ghost whole: { Whole bytes.now shape } by { Whole-prop bytes.now shape },
}

impl<'a> ChangeList<'a> {
    // The bytes as a list for volumes of l blocks, where they are one.
    pub fn open(bytes: &'a [u8], l: u16) -> Option<ChangeList<'a>>
        ensures { MatchOption result (list_number l bytes.now ≡ 8)
            (λ list. (list_number l bytes.now ≡ 0) × (list.bytes.now ≡ bytes.now)) }
    {
        let shape = pairs::check(bytes, l)?;
        Some(ChangeList { bytes, shape })
    }

    // Before the first change.
    pub fn start(self) -> Cursor
        ensures { StandsAt self.entry.bytes.now result 0 }
    {
        Cursor { pair: 0, within: 0 }
    }

    // The LBN of the change at the cursor.
    pub fn lbn_at(self, at: Cursor) -> LBN
        requires { Valid self.bytes.now at × (index_of self.bytes.now at < self.shape.changes) }
        ensures { result.0 ≡ (change_at self.entry.bytes.now (index_of self.entry.bytes.now at)).lbn }
    {
        let first = u16_at(self.bytes, 2 + at.pair as usize * PAIR_SIZE);
        LBN(first + at.within)
    }

    // After the change at the cursor.
    pub fn next(self, at: Cursor) -> Cursor
        requires { Valid self.bytes.now at × (index_of self.bytes.now at < self.shape.changes) }
        ensures { StandsAt self.entry.bytes.now result (index_of self.entry.bytes.now at + 1) }
    {
        let many = u16_at(self.bytes, 2 + at.pair as usize * PAIR_SIZE + 2);
        if at.within + 1 < many {
            Cursor {
                pair: at.pair,
                within: at.within + 1,
            }
        } else {
            Cursor {
                pair: at.pair + 1,
                within: 0,
            }
        }
    }

    // All fingerprints, as the part of the list that they are.
    pub fn prints(self) -> &'a [u8]
        ensures { let b = self.entry.bytes.now in result.now ≡ part b (prints_from b) (self.entry.shape.changes * print_size) }
    {
        let from = 2 + self.shape.pairs as usize * PAIR_SIZE;
        let to = from + self.shape.changes as usize * PRINT_SIZE;
        &self.bytes[from..to]
    }

    // The fingerprint of change i.
    pub fn print_of(self, i: usize) -> &'a [u8]
        requires { i < self.shape.changes }
        ensures { result.now ≡ (change_at self.entry.bytes.now i).print }
    {
        let from = 2 + self.shape.pairs as usize * PAIR_SIZE + i * PRINT_SIZE;
        let to = from + PRINT_SIZE;
        &self.bytes[from..to]
    }

    // The block of change i, as the 512 bytes of the list that it is.
    pub fn block_of(self, i: usize) -> &'a [u8]
        requires { i < self.shape.changes }
        ensures { result.now ≡ (change_at self.entry.bytes.now i).block }
    {
        let prints_from = 2 + self.shape.pairs as usize * PAIR_SIZE;
        let blocks_from = prints_from + self.shape.changes as usize * PRINT_SIZE;
        let from = blocks_from + i * BLOCK_SIZE;
        let to = from + BLOCK_SIZE;
        &self.bytes[from..to]
    }
}
