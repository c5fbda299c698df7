// What a release and a state give as numbers: "otherwise zeros" where the call is refused.
ghost use Rattle.std.specs.Prelude.{◌≡◌};
ghost use Rattle.register.specs.Paper.{released, stated, release_told, state_told};

use crate::State;
use refusal::Refusal;

// The length of the plan that a release gave, 0 where it is refused.
pub fn length_in(answer: Result<u32, Refusal>) -> u32
    ensures { result ≡ released (release_told answer) }
{
    answer.unwrap_or(0)
}

// The revision of a plan and how many have signed it, zeros where the call is refused.
pub fn state_in(answer: Result<State, Refusal>) -> State
    ensures { result ≡ stated (state_told answer) }
{
    answer.unwrap_or(State {
        revision: 0,
        signers: 0,
    })
}
