// Which call it is.
ghost use Rattle.heads.specs.Kinds.{Decodes};

use words::refusals::Refusal;

// The first byte of a call's head says it: 0 and up, in this order.
#[derive(Clone, Copy, Debug, PartialEq, Eq)]
pub enum Kind {
    Enrol,
    Backup,
    Collect,
    Read,
    Audit,
    Restore,
    Retire,
}

impl TryFrom<u8> for Kind {
    type Error = Refusal;

    ghost try_from_gives = { Decodes };

    fn try_from(byte: u8) -> Result<Kind, Refusal> {
        match byte {
            0 => Ok(Kind::Enrol),
            1 => Ok(Kind::Backup),
            2 => Ok(Kind::Collect),
            3 => Ok(Kind::Read),
            4 => Ok(Kind::Audit),
            5 => Ok(Kind::Restore),
            6 => Ok(Kind::Retire),
            _ => Err(Refusal::BadInput),
        }
    }
}
