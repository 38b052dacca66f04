// The marks of an aid in longest runs (document 01, "The writer on the aid"), each cut into pieces that are runs of the
// list (document 02, K1): how many there are, and their pairs in bytes.

#![tactic(auto)]

ghost use Rattle.std.specs.Prelude.{◌≡◌, ◌+◌, ◌≤◌, ◌<◌, length};
ghost use Rattle.words.specs.Laying.{Stored};
ghost use Rattle.runs.specs.Passing.{row_after};
ghost use Rattle.marks.specs.Passes.{pair_of, pairs_of, counted, Counted, Passed};

use words::limits::MAX_RUN;

// What a pass over the marks counts: runs that ended, marked blocks, and the blocks of the open run.
#[derive(Clone, Copy)]
pub struct Tally {
    pub runs: u16,
    pub changes: u16,
    pub row: u16,
}

// Where a pass that writes the pairs stands: the next byte, and the blocks of the open run.
#[derive(Clone, Copy)]
struct Progress {
    at: usize,
    row: u16,
}

// The blocks of the open run past a block with this mark. A run that is full ends, and the block starts the next one.
fn row_after(row: u16, mark: u8) -> u16
    ensures { result ≡ row_after row mark }
{
    if mark != 1 {
        return 0;
    }
    if row < MAX_RUN as u16 { row + 1 } else { 1 }
}

// One mark more: the run goes on, or there was none, or it ends. Where it ends, `row` is what the block adds to the
// changes.
fn count_mark(t: Tally, mark: u8) -> Tally
    requires { (t.runs < 65535) × (t.changes < 65535) }
    ensures { result ≡ counted t mark }
{
    let open = t.row;
    let row = row_after(open, mark);
    if open < row {
        return Tally {
            runs: t.runs,
            changes: t.changes + 1,
            row,
        };
    }
    if open == 0 {
        return t;
    }
    Tally {
        runs: t.runs + 1,
        changes: t.changes + row,
        row,
    }
}

// E and n. A mark of 0 past the last one ends the last run.
pub fn count_marks(marks: &[u8]) -> Tally
    requires { length marks.now ≤ 1024 }
    ensures { Counted marks.now result }
{
    let mut t = Tally {
        runs: 0,
        changes: 0,
        row: 0,
    };
    for mark in marks {
        t = count_mark(t, *mark);
    }
    count_mark(t, 0)
}

// One mark more, that of the block lbn: the run goes on, or there was none, or it ends and its pair is written.
fn put_mark(list: &mut [u8], p: Progress, lbn: u16, mark: u8) -> Progress
    requires { (p.row ≤ lbn) × (lbn < 65535) × (p.at + length (pair_of lbn p.row mark) ≤ length list.old) }
    ensures { Passed list.old p lbn mark list.new result }
{
    let at = p.at;
    let row = row_after(p.row, mark);
    if p.row < row {
        return Progress { at, row };
    }
    if p.row == 0 {
        return p;
    }
    words::put_u16(list, at, lbn - p.row);
    words::put_u16(list, at + 2, p.row);
    Progress { at: at + 4, row }
}

// The pairs of the runs, ended as in the count. As every writer of a section it answers the offset past it.
pub fn put_runs(list: &mut [u8], at: usize, marks: &[u8]) -> usize
    requires { (length marks.now ≤ 1024) × (at + length (pairs_of marks.now) ≤ length list.old) }
    ensures { Stored list.old at (pairs_of marks.now) list.new result }
{
    let mut p = Progress { at, row: 0 };
    for (lbn, mark) in marks.iter().enumerate() {
        p = put_mark(list, p, lbn as u16, *mark);
    }
    let end = put_mark(list, p, marks.len() as u16, 0);
    end.at
}
