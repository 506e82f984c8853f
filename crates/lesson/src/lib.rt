// The calls of the C host (include/lesson.h), which crates/lesson_c exports. Each is thin: it calls the engine and turns the answer into
// document 01's number. None has a `requires`: every input has an outcome.
#![tactic(auto)]

ghost use Rattle.std.specs.Prelude.{◌≡◌, MatchResult};
ghost use Rattle.std.specs.Result.{ForOk};
ghost use Rattle.book.specs.Causes.{verdict};
ghost use Rattle.book.specs.Numbers.{number_of};
ghost use Rattle.test_call.specs.Reply.{test_reply};
ghost use Rattle.list_call.specs.Reply.{list_reply, list_buffer};
ghost use Rattle.one_call.specs.Reply.{one_reply, one_buffer};
ghost use Rattle.near_call.specs.Reply.{near_reply, near_buffer};
ghost use Rattle.place_call.specs.Reply.{place_reply};
ghost use Rattle.count_call.specs.Reply.{count_reply};
ghost use Rattle.lesson.specs.Answers.{check_answer, test_answer, list_answer, one_answer, place_answer, near_answer, count_answer};

use book::{Cause, check};
use drive::{count, list, nearest, one, place};
use test_call::test;

// What an answer carries is told in bits of its own: g from bit 8 on, the call's own number from bit 16 on, and a count from bit 40 on.
const BRANCHING: u64 = 1 << 8;

const OWN: u64 = 1 << 16;

const FITTING: u64 = 1 << 40;

// How an answer is told: in the bits that its call makes of a granted one, or as the cause's number.
fn number<T: Drop, F: FnOnce(T) -> u64>(answer: Result<T, Cause>, bits: F) -> u64
    requires { ForOk answer (λ told. F.pre bits told) }
    ensures { MatchResult answer (λ told. F.post bits told result) (λ c. result ≡ number_of c) }
{
    answer.map_or_else(u64::from, bits)
}

// Whether a book is accepted, or the first of causes 1 to 8 that applies.
pub fn lesson_check(book: &[u8]) -> u64
    ensures { result ≡ check_answer (verdict book.now) }
{
    number(check(book), |_| 0)
}

// Whether a candidate is a stable state of a book at a layer, with the layers of a set switched off, or the first of causes 1 to 10 and
// 19 that applies: yes in bit 16.
pub fn lesson_test(book: &[u8], layer: u32, off: u32, candidate: &[u8]) -> u64
    ensures { result ≡ test_answer (test_reply book.now layer off candidate.now) }
{
    number(test(book, layer, off, candidate), |yes| {
        u64::from(yes) * OWN
    })
}

// Writes the listing of a book at a layer, with the layers of a set switched off, into the buffer, or names the first of causes 1 to 9,
// 19, 12 and 13 that applies and leaves every byte. The answer carries k and g.
pub fn lesson_list(book: &[u8], layer: u32, off: u32, buffer: &mut [u8]) -> u64
    ensures answer { result ≡ list_answer (list_reply book.now layer off buffer.old) }
    ensures bytes { buffer.new ≡ list_buffer book.now layer off buffer.old }
{
    number(list(book, layer, off, buffer), |l| {
        l.states as u64 * OWN + l.branching as u64 * BRANCHING
    })
}

// Writes the first record of the listing of a book at a layer, with the layers of a set switched off, into the buffer's first bytes, or
// names the first of causes 1 to 9, 19, 12, 13 and 14 that applies and leaves every byte. The answer carries g.
pub fn lesson_one(book: &[u8], layer: u32, off: u32, buffer: &mut [u8]) -> u64
    ensures answer { result ≡ one_answer (one_reply book.now layer off buffer.old) }
    ensures bytes { buffer.new ≡ one_buffer book.now layer off buffer.old }
{
    number(one(book, layer, off, buffer), |g| g as u64 * BRANCHING)
}

// Whether a fact stands in every stable state of a book at a layer, with the layers of a set switched off, in some or in none, or the
// first of causes 1 to 9, 19, 11, 12 and 14 that applies. The answer carries the place and g.
pub fn lesson_place(book: &[u8], layer: u32, off: u32, fact: u32) -> u64
    ensures { result ≡ place_answer (place_reply book.now layer off fact) }
{
    number(place(book, layer, off, fact as usize), |p| {
        p.place as u64 * OWN + p.branching as u64 * BRANCHING
    })
}

// Writes the record of the stable state of a book at a layer that differs from a candidate in the fewest facts, with the layers of a set
// switched off, into the buffer's first bytes, and among equals the first of the listing; or names the first of causes 1 to 9, 19, 10, 12,
// 13 and 14 that applies and leaves every byte. The answer carries the number of facts that differ and g.
pub fn lesson_nearest(book: &[u8], layer: u32, off: u32, candidate: &[u8], buffer: &mut [u8]) -> u64
    ensures answer { result ≡ near_answer (near_reply book.now layer off candidate.now buffer.old) }
    ensures bytes { buffer.new ≡ near_buffer book.now layer off candidate.now buffer.old }
{
    number(nearest(book, layer, off, candidate, buffer), |n| {
        n.distance as u64 * OWN + n.branching as u64 * BRANCHING
    })
}

// In how many stable states of a book at a layer, with the layers of a set switched off, a condition holds, or the first of causes 1 to
// 9, 19, 16, 17, 11 and 12 that applies. The answer carries the count, k and g.
pub fn lesson_count(book: &[u8], layer: u32, off: u32, condition: &[u8]) -> u64
    ensures { result ≡ count_answer (count_reply book.now layer off condition.now) }
{
    number(count(book, layer, off, condition), |k| {
        k.fitting as u64 * FITTING + k.states as u64 * OWN + k.branching as u64 * BRANCHING
    })
}
