// Answers in bytes (docs/FORMAT.md), and how each is printed.
ghost use Rattle.std.specs.Prelude.{◌≤◌, length};
ghost use Rattle.std.specs.Iterator.{at_most};

use std::fmt;
use words::BLOCK_SIZE;

#[derive(Clone, Copy)]
pub enum Answer<'a> {
    // A refusal, 0 of a call that answers nothing else, or how many blocks a restore has.
    Number(u16),
    Backed {
        number: u16,
        taken: u16,
        touched: u16,
    },
    // A collect's freed, or a retire's cells.
    Gave(u16),
    Block(&'a [u8]),
    Sound(u16),
    // It isn't whole.
    Cut,
}

// Answers one after the other; what is left of one that isn't whole is the last.
#[derive(Drop)]
pub struct Answers<'a>(pub &'a [u8]);

impl<'a> Answers<'a> {
    fn bytes(&mut self, many: usize) -> Option<&'a [u8]>
        ensures { length self.new.0.now ≤ length self.old.0.now }
    {
        self.0.split_off(..many)
    }

    fn number(&mut self) -> Option<u16>
        ensures { length self.new.0.now ≤ length self.old.0.now }
    {
        let (number, rest) = self.0.split_first_chunk()?;
        self.0 = rest;
        Some(u16::from_le_bytes(*number))
    }

    // What follows a tag, if it is whole. After a restore's tag and count its blocks are read as answers.
    fn answer(&mut self, tag: u8) -> Option<Answer<'a>>
        ensures { length self.new.0.now ≤ length self.old.0.now }
    {
        Some(match tag {
            1 => Answer::Backed {
                number: self.number()?,
                taken: self.number()?,
                touched: self.number()?,
            },
            2 => Answer::Gave(self.number()?),
            3 => Answer::Block(self.bytes(BLOCK_SIZE)?),
            4 => Answer::Sound(self.number()?),
            _ => Answer::Number(self.number()?),
        })
    }
}

impl<'a> Iterator for Answers<'a> {
    type Item = Answer<'a>;

    ghost remaining = { λ s. at_most (length s.0.now) };

    fn next(&mut self) -> Option<Answer<'a>> {
        let tag = self.0.split_off_first()?;
        let answer = self.answer(*tag);
        if answer.is_none() {
            self.0 = &[];
        }
        Some(answer.unwrap_or(Answer::Cut))
    }
}

fn hex<W: fmt::Write>(f: &mut fmt::Formatter<W>, bytes: &[u8]) -> fmt::Result {
    for byte in bytes {
        write!(f, "{byte:02x}")?;
    }
    Ok(())
}

impl fmt::Display for Answer<'_> {
    fn fmt<W: fmt::Write>(&self, f: &mut fmt::Formatter<W>) -> fmt::Result {
        match self {
            Answer::Number(number) => write!(f, "number {number}"),
            Answer::Backed {
                number,
                taken,
                touched,
            } => write!(f, "backup {number}, taken {taken}, touched {touched}"),
            Answer::Gave(number) => write!(f, "gave {number}"),
            Answer::Block(block) => {
                f.write_str("block ")?;
                hex(f, block)
            }
            Answer::Sound(sound) => write!(f, "sound {sound}"),
            Answer::Cut => Ok(()),
        }
    }
}
