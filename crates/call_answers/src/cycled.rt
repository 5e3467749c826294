// Why a cycle was not completed.
ghost use Rattle.std.specs.Prelude.{◌≡◌};
ghost use Rattle.call_answers.specs.declared.cycled.Halt.TheVariants.{Refused};

use language::refusals::Refusal;
use language::stops::Stop;

#[derive(Clone, Copy)]
pub enum Halt {
    Stopped(Stop),
    Refused(Refusal),
}

impl From<Refusal> for Halt {
    ghost from_gives = { λ r e. e ≡ Refused r };

    fn from(refusal: Refusal) -> Halt {
        Halt::Refused(refusal)
    }
}
