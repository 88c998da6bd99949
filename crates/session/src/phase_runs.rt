// What runs by the phase: text and close first run the data end, where the session is still in data.
ghost use Rattle.std.specs.Prelude.{◌≡◌};
ghost use Rattle.acorn_model.specs.Stretches.{through, text_end};
ghost use Rattle.acorn_kernel.specs.Together.{state_of};
ghost use Rattle.session.specs.Clauses.{ended_state, data_end_steps};

use super::Session;
use acorn::{State, end_data, end_text};
use acorn_model::{DATA_END_STEPS, Phase};

impl Session {
    // The state after that data end.
    #[tactic(auto, unfolding(crate::specs::Clauses::ended_state))]
    pub(crate) fn data_ended(self) -> State
        ensures { state_of result ≡ ended_state self.phase (state_of self.state) }
    {
        if self.phase == Phase::Data {
            end_data(self.state)
        } else {
            self.state
        }
    }

    // Its steps.
    pub(crate) fn data_end_steps(self) -> u64
        ensures { result ≡ data_end_steps self.phase }
    {
        if self.phase == Phase::Data {
            DATA_END_STEPS
        } else {
            0
        }
    }

    // The state before final.
    pub(crate) fn text_ended(self) -> State
        ensures { state_of result ≡ through text_end (ended_state self.phase (state_of self.state)) }
    {
        end_text(self.data_ended())
    }
}
