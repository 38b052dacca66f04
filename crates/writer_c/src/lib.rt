// The change list as the aid writes it, for C: that of `writer`, with numbers for refusals.

#![tactic(auto)]

ghost use Rattle.runs.specs.Writer.{Wrote};
ghost use Rattle.words.specs.Lent.{lent};

// Writes the list of the marked blocks and answers its length in bytes.
#[tactic(auto, using(crate::proofs::WriteExits::unanswered))]
#[unsafe(no_mangle)]
pub extern "C" fn aspen_write_list(
    l: u16,
    marks: &[u8],
    prints: &[u8],
    image: &[u8],
    list: &mut [u8],
    written: &mut u32,
) -> u16
    ensures { Wrote l marks prints image (lent list) (lent written) result }
{
    match writer::write_list(l, marks, prints, image, list) {
        Ok(size) => {
            *written = size as u32;
            0
        }
        Err(refusal) => u16::from(refusal),
    }
}
