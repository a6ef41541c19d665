// A phase of the scattered pilots, which come back every fourth symbol: 0 to 3.

ghost use Rattle.std.specs.Prelude.{◌<◌};

use crate::Refusal;

#[derive(Clone, Copy)]
pub struct Phase {
    pub number: u8,
    ghost in_cycle: { number < 4 },
}

impl TryFrom<u8> for Phase {
    ghost use Rattle.params.specs.Phase.{PhaseTold};

    type Error = Refusal;

    ghost try_from_gives = { PhaseTold };

    fn try_from(number: u8) -> Result<Phase, Refusal> {
        if 3 < number {
            return Err(Refusal::BadPhase);
        }
        Ok(Phase { number })
    }
}
