// The call that counts the states that fit a condition, once its table and plan are made and the condition is read: k, g, and in how
// many stable states of the driven layer the condition holds.
#![tactic(auto)]

ghost use Rattle.std.specs.Prelude.{◌≡◌, Ok};
ghost use Rattle.condition.specs.Code.{code_holds, StackFits};
ghost use Rattle.search.specs.Space.{space_program};
ghost use Rattle.count_call.specs.Reply.{reply_of};

use condition::Code;
use passes::tally;
use search::{Goal, Space};

// What a count tells: k, the number of the stable states, g, the number of the branching facts, and in how many states the condition holds.
#[derive(Clone, Copy, Debug, PartialEq, Eq)]
pub struct Counted {
    pub states: usize,
    pub branching: usize,
    pub fitting: usize,
}

// One pass of the search, which meets every stable model and tries the condition's code on it.
pub fn count_found(space: &Space, codes: &[Code]) -> Counted
    requires { StackFits codes.now }
    ensures { Ok result ≡ reply_of (Ok tt) (space_program space.now) (code_holds codes.now) }
{
    let counts = tally(space, &Goal::Fit(codes));
    Counted {
        states: counts.count,
        branching: space.plan.atoms.as_slice().len(),
        fitting: counts.weight,
    }
}
