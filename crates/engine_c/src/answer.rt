// A call's result as C gets it: the number of the refusal, or 0 and the answer where the caller wants it.
ghost use Rattle.std.specs.Prelude.{◌≡◌, MatchResult};
ghost use Rattle.words.specs.Refusals.{refusal_number};

use words::refusals::Refusal;

pub fn number(answer: Result<(), Refusal>) -> u16
    ensures { result ≡ refusal_number answer }
{
    match answer {
        Ok(()) => 0,
        Err(refusal) => u16::from(refusal),
    }
}

pub fn told<T: Copy>(answer: Result<T, Refusal>, to: &mut T) -> u16
    ensures value { result ≡ refusal_number answer }
    ensures to_after { MatchResult answer (λ t. to.new ≡ t) (λ _. to.new ≡ to.old) }
{
    match answer {
        Ok(t) => {
            *to = t;
            0
        }
        Err(refusal) => u16::from(refusal),
    }
}
