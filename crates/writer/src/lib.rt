// The change list as the aid writes it (document 01, "The writer on the aid").

#![tactic(auto)]

ghost use Rattle.std.specs.Prelude.{◌≡◌, ◌+◌, ◌*◌, ◌≤◌, length, leb};
ghost use Rattle.std.proofs.lemmas.List.Edits.{sets};
ghost use Rattle.words.specs.Lists.{all};
ghost use Rattle.words.specs.Laying.{Stored};
ghost use Rattle.writer.specs.Elements.{if_marked, marked_elements, Room};
ghost use Rattle.writer.specs.Promises.{Writes};
ghost use Rattle.runs.specs.Writer.{list_of, input_ok};
ghost use Rattle.words.specs.Lent.{lent};

use marks::{Tally, count_marks, put_runs};
use words::limits::MAX_LBNS;
use words::refusals::Refusal;
use words::{BLOCK_SIZE, PRINT_SIZE};

fn marks_ok(marks: &[u8]) -> bool
    ensures { result ≡ all (λ m. leb m 1) marks.now }
{
    marks.iter().all(|m| *m <= 1)
}

// False where number 19 refuses.
fn input_ok(l: u16, marks: &[u8], prints: &[u8], image: &[u8]) -> bool
    ensures { result ≡ input_ok l marks.now prints.now image.now }
{
    if l < 1 {
        return false;
    }
    if l > MAX_LBNS as u16 {
        return false;
    }
    let n = l as usize;
    if marks.len() != n {
        return false;
    }
    if prints.len() != n * PRINT_SIZE {
        return false;
    }
    if image.len() != n * BLOCK_SIZE {
        return false;
    }
    marks_ok(marks)
}

// The bytes, if their block is marked.
fn put_if(list: &mut [u8], at: usize, mark: u8, bytes: &[u8]) -> usize
    requires { at + length (if_marked mark bytes.now) ≤ length list.old }
    ensures { Stored list.old at (if_marked mark bytes.now) list.new result }
{
    if mark != 1 {
        return at;
    }
    words::put_bytes(list, at, bytes);
    at + bytes.len()
}

// The marked ones of the elements, which are `size` bytes each: fingerprints or blocks.
fn put_marked(list: &mut [u8], at: usize, marks: &[u8], elements: &[u8], size: usize) -> usize
    requires elements_len { length elements.now ≡ length marks.now * size }
    requires marks_in_bounds { at + length (marked_elements size elements.now 0 marks.now) ≤ length list.old }
    ensures { Stored list.old at (marked_elements size elements.now 0 marks.now)
        list.new result }
{
    let mut next = at;
    let mut from = 0;
    for mark in marks {
        let to = from + size;
        next = put_if(list, next, *mark, &elements[from..to]);
        from = to;
    }
    next
}

// "The bytes number 2 + 4E + 528n".
fn list_len(t: Tally) -> usize
    ensures { result ≡ 2 + 4 * t.runs + 528 * t.changes }
{
    2 + 4 * (t.runs as usize) + 528 * (t.changes as usize)
}

// The list, to the front of an output that has room for it.
fn put_list(list: &mut [u8], runs: u16, marks: &[u8], prints: &[u8], image: &[u8])
    requires { Room list.old runs marks.now prints.now image.now }
    ensures { list.new ≡ sets list.old 0 (list_of marks prints image) }
{
    words::put_u16(list, 0, runs);
    let prints_from = put_runs(list, 2, marks);
    let blocks_from = put_marked(list, prints_from, marks, prints, PRINT_SIZE);
    put_marked(list, blocks_from, marks, image, BLOCK_SIZE);
}

// Writes the list of the marked blocks and answers its length in bytes.
pub fn write_list(
    l: u16,
    marks: &[u8],
    prints: &[u8],
    image: &[u8],
    list: &mut [u8],
) -> Result<usize, Refusal>
    ensures { Writes l marks prints image (lent list) result }
{
    if !input_ok(l, marks, prints, image) {
        return Err(Refusal::BadInput);
    }
    let t = count_marks(marks);
    let size = list_len(t);
    if list.len() < size {
        return Err(Refusal::ShortOutput);
    }
    put_list(list, t.runs, marks, prints, image);
    Ok(size)
}
