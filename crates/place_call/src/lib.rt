// The call that asks for a fact's place, once its table and plan are made: cause 14, or whether the fact stands in every stable state of
// the driven layer, in some or in none, with g.
#![tactic(auto)]

ghost use Rattle.std.specs.Prelude.{◌≡◌};
ghost use Rattle.book.specs.Causes.{first_of};
ghost use Rattle.search.specs.Space.{space_program};
ghost use Rattle.place_call.specs.Reply.{state_tests, reply_of};

use book::Cause;
use passes::tally;
use search::{Goal, Space};

// In which of the stable states a fact stands, with the number by which it is told.
#[derive(Clone, Copy, Debug, PartialEq, Eq)]
pub enum Place {
    Nowhere = 0,
    InSome = 1,
    Every = 2,
}

// What is told of a fact: its place, and g, the number of the branching facts.
#[derive(Clone, Copy, Debug, PartialEq, Eq)]
pub struct Placed {
    pub place: Place,
    pub branching: usize,
}

// One pass of the search, which stops once the fact stands in some but not in all of the stable models met.
pub fn place_found(space: &Space, fact: usize) -> Result<Placed, Cause>
    ensures { result ≡ reply_of (first_of (state_tests (space_program space.now))) (space_program space.now) fact }
{
    let counts = tally(space, &Goal::Settle(fact));
    let standing = counts.weight;
    let branching = space.plan.atoms.as_slice().len();
    if counts.count == 0 {
        return Err(Cause::NoStableState);
    }
    let place = if standing == 0 {
        Place::Nowhere
    } else if standing < counts.count {
        Place::InSome
    } else {
        Place::Every
    };
    Ok(Placed { place, branching })
}
