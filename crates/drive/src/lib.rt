// The calls that search, one function each. Each names its causes in the order of test, those of the book and of the layer, its own and
// 12; then it lends the space that is searched, which is set up once, to the pass and the reply of its own crate.
#![tactic(auto)]

ghost use Rattle.std.specs.Prelude.{◌≡◌};
ghost use Rattle.list_call.specs.Reply.{list_reply, list_buffer};
ghost use Rattle.one_call.specs.Reply.{one_reply, one_buffer};
ghost use Rattle.near_call.specs.Reply.{near_reply, near_buffer};
ghost use Rattle.place_call.specs.Reply.{place_reply};
ghost use Rattle.count_call.specs.Reply.{count_reply};

use accepted::check_layer;
use book::Cause;
use candidate::bad_candidate;
use condition::read_condition;
use count_call::{Counted, count_found};
use list_call::{Listed, list_models};
use near_call::{Nearest, near_found};
use one_call::one_found;
use passes::Work;
use place_call::{Placed, place_found};

// Kept: each call sets up its own space: one function with a closure was tried, and what that writes to a captured buffer was not proved.
// Writes the listing of a book at a driven layer, with the layers of a set switched off. Here and below a refusal leaves every byte of the
// buffer.
pub fn list(book: &[u8], layer: u32, off: u32, buffer: &mut [u8]) -> Result<Listed, Cause>
    ensures answer { result ≡ list_reply book.now layer off buffer.old }
    ensures bytes { buffer.new ≡ list_buffer book.now layer off buffer.old }
{
    let driving = check_layer(book, layer, off)?;
    list_models(&Work::new().set_up(&driving)?, buffer)
}

// Writes the first record of the listing, and answers how many facts branch.
pub fn one(book: &[u8], layer: u32, off: u32, buffer: &mut [u8]) -> Result<usize, Cause>
    ensures answer { result ≡ one_reply book.now layer off buffer.old }
    ensures bytes { buffer.new ≡ one_buffer book.now layer off buffer.old }
{
    let driving = check_layer(book, layer, off)?;
    one_found(&Work::new().set_up(&driving)?, buffer)
}

// Whether a fact stands in every stable state, in some or in none. That the book has the fact is tested before the branching facts are
// counted.
pub fn place(book: &[u8], layer: u32, off: u32, fact: usize) -> Result<Placed, Cause>
    ensures { result ≡ place_reply book.now layer off fact }
{
    let driving = check_layer(book, layer, off)?;
    if driving.atom_count() <= fact {
        return Err(Cause::NoSuchFact);
    }
    place_found(&Work::new().set_up(&driving)?, fact)
}

// Writes the record of the stable state that is closest to a candidate.
pub fn nearest(
    book: &[u8],
    layer: u32,
    off: u32,
    candidate: &[u8],
    buffer: &mut [u8],
) -> Result<Nearest, Cause>
    ensures answer { result ≡ near_reply book.now layer off candidate.now buffer.old }
    ensures bytes { buffer.new ≡ near_buffer book.now layer off candidate.now buffer.old }
{
    let driving = check_layer(book, layer, off)?;
    if bad_candidate(candidate, driving.atom_count()) {
        return Err(Cause::BadCandidate);
    }
    near_found(&Work::new().set_up(&driving)?, candidate, buffer)
}

// In how many stable states a condition holds. It is read before anything is set up: its causes come before 12.
pub fn count(book: &[u8], layer: u32, off: u32, condition: &[u8]) -> Result<Counted, Cause>
    ensures { result ≡ count_reply book.now layer off condition.now }
{
    let driving = check_layer(book, layer, off)?;
    let codes = read_condition(condition, driving.atom_count())?;
    Ok(count_found(&Work::new().set_up(&driving)?, codes.as_slice()))
}
