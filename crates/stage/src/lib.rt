//! The stages of the working-out, and the refusal of one.
#![tactic(auto)]

ghost use Rattle.std.specs.Prelude.{◌≡◌};
ghost use Rattle.stage.specs.Stages.{at_stage, stage_number};

use enclosure::Refusal;
use thiserror::Error;

/// A stage of the working-out, by its number.
#[derive(Clone, Copy, PartialEq, Eq, Debug)]
pub enum Stage {
    /// The reflection terms of port 1.
    Port1 = 1,
    /// The reflection terms of port 2.
    Port2 = 2,
    /// The forward terms of the thru.
    ForwardThru = 3,
    /// The reverse terms of the thru.
    ReverseThru = 4,
    /// From raw to actual.
    Correct = 5,
    /// From actual to raw.
    Embed = 6,
}

/// Why a stage is refused: by the cause that its working-out met.
#[derive(Clone, Copy, PartialEq, Eq, Debug, Error)]
#[error("{cause}, at stage {}", u8::from(self.stage))]
pub struct StageRefusal {
    pub cause: Refusal,
    pub stage: Stage,
}

impl Stage {
    /// An answer of this stage: where it is refused, the stage is noted.
    pub fn note<T>(self, answer: Result<T, Refusal>) -> Result<T, StageRefusal>
        ensures { result ≡ at_stage self answer }
    {
        answer.map_err(|cause| StageRefusal { cause, stage: self })
    }
}

impl From<Stage> for u8 {
    ghost from_gives = { λ stage number. number ≡ stage_number stage };

    /// The number of the stage.
    fn from(stage: Stage) -> u8 {
        // a match would list the numbers again
        stage as u8
    }
}
