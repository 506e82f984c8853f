// The listing call, once its table and plan are made: cause 13, or every stable model's record in rising order, with k and g.
#![tactic(auto)]

ghost use Rattle.std.specs.Prelude.{length};
ghost use Rattle.book.specs.Causes.{first_of};
ghost use Rattle.search.specs.Space.{space_program};
ghost use Rattle.list_call.specs.Reply.{room_tests, Answers};

use book::Cause;
use passes::{most_records, write_all};
use records::{HEAD_SIZE, put_head, record_size};
use search::Space;

// What a granted listing tells: k, the number of the stable states, and g, the number of the branching facts.
#[derive(Clone, Copy, Debug, PartialEq, Eq)]
pub struct Listed {
    pub states: usize,
    pub branching: usize,
}

// Writes the records of the stable models where there is room for them, and the head last: one pass where there is room for a record of
// every setting, else one that counts and one that writes.
pub fn list_models(space: &Space, buffer: &mut [u8]) -> Result<Listed, Cause>
    ensures { Answers (first_of (room_tests (space_program space.now) (length buffer.old))) (space_program space.now) buffer.old result buffer.new }
{
    if buffer.len() < HEAD_SIZE {
        return Err(Cause::BufferTooShort);
    }
    let n = space.plan.n;
    let w = record_size(n);
    let room = (buffer.len() - HEAD_SIZE) / w;
    let most = most_records(space, room);
    if room < most {
        return Err(Cause::BufferTooShort);
    }
    let end = HEAD_SIZE + most * w;
    let k = write_all(space, &mut buffer[HEAD_SIZE..end]);
    put_head(buffer, HEAD_SIZE + k * w, n, k);
    Ok(Listed {
        states: k,
        branching: space.plan.atoms.as_slice().len(),
    })
}
