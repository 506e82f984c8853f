// The call for the state closest to a candidate, once its table and plan are made: cause 13 or 14, or that state's record, with the
// number of facts that differ and g.
#![tactic(auto)]

ghost use Rattle.std.specs.Prelude.{◌≡◌, false, length};
ghost use Rattle.models.specs.Listing.{interpretation_of};
ghost use Rattle.book.specs.Causes.{first_of};
ghost use Rattle.candidate.specs.Candidate.{is_bad_candidate};
ghost use Rattle.search.specs.Space.{space_program};
ghost use Rattle.one_call.specs.Reply.{room_tests};
ghost use Rattle.near_call.specs.Reply.{Answers};

use book::Cause;
use candidate::read_candidate;
use passes::write_nearest;
use records::record_size;
use search::Space;

// What is told of the state that is written: how many facts differ, and g, the number of the branching facts.
#[derive(Clone, Copy, Debug, PartialEq, Eq)]
pub struct Nearest {
    pub distance: usize,
    pub branching: usize,
}

// Writes the record of the stable state closest to a candidate. Room for a record comes first: a short buffer is 13 whether or not there is
// a state.
pub fn near_found(space: &Space, candidate: &[u8], buffer: &mut [u8]) -> Result<Nearest, Cause>
    requires { is_bad_candidate space.now.plan.now.n candidate.now ≡ false }
    ensures { Answers (first_of (room_tests (space_program space.now) (length buffer.old))) (space_program space.now) (interpretation_of space.now.plan.now.n candidate.now) buffer.old result buffer.new }
{
    let n = space.plan.n;
    let size = record_size(n);
    if buffer.len() < size {
        return Err(Cause::BufferTooShort);
    }
    let wanted = read_candidate(candidate, n);
    match write_nearest(space, &wanted[..n], &mut buffer[0..size]) {
        Some(distance) => Ok(Nearest {
            distance,
            branching: space.plan.atoms.as_slice().len(),
        }),
        None => Err(Cause::NoStableState),
    }
}
