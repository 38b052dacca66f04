// The numbers of refusal (document 01, "Numbers of refusal"), named as in the C interface.
ghost use Rattle.std.specs.Prelude.{◌≡◌};
ghost use Rattle.words.specs.Refusals.{number};

#[derive(Clone, Copy, Debug, PartialEq, Eq)]
pub enum Refusal {
    BadLayout = 1,
    BadForm,
    BadPool,
    ShortSpare,
    BadVolume,
    BadRetention,
    BadDay,
    BadList,
    NoSlot,
    NoRecord,
    OtherBytes,
    NoBlock,
    CountZero,
    CountFull,
    NoBackup,
    NotKept,
    BadLbn,
    NotMapped,
    BadInput,
    ShortOutput,
    // Document 02, K2.
    BadRun,
    // Document 02, K3.
    CountWide,
}

impl From<Refusal> for u16 {
    ghost from_gives = { λ refusal n. n ≡ number refusal };

    fn from(refusal: Refusal) -> u16 {
        refusal as u16
    }
}
