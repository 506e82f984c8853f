// The call that hands out one state, once its table and plan are made: cause 13 or 14, or the first record of the listing, with g.
#![tactic(auto)]

ghost use Rattle.std.specs.Prelude.{length};
ghost use Rattle.book.specs.Causes.{first_of};
ghost use Rattle.search.specs.Space.{space_program};
ghost use Rattle.one_call.specs.Reply.{room_tests, Answers};

use book::Cause;
use passes::write_first;
use records::record_size;
use search::Space;

// Writes the first record and tells g, the number of the branching facts. Room for a record comes first: a short buffer is 13 whether or
// not there is a state.
pub fn one_found(space: &Space, buffer: &mut [u8]) -> Result<usize, Cause>
    ensures { Answers (first_of (room_tests (space_program space.now) (length buffer.old))) (space_program space.now) buffer.old result buffer.new }
{
    let size = record_size(space.plan.n);
    if buffer.len() < size {
        return Err(Cause::BufferTooShort);
    }
    let found = write_first(space, &mut buffer[0..size]);
    if found {
        Ok(space.plan.atoms.as_slice().len())
    } else {
        Err(Cause::NoStableState)
    }
}
