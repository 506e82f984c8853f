// The exports of the archive (include/lesson.h): the calls of crates/lesson under their names, each with that call's clauses. A library
// exports nothing to C, and crates/other_layers uses the calls as a library, so the exports stand apart.
#![tactic(auto)]

ghost use Rattle.std.specs.Prelude.{◌≡◌};
ghost use Rattle.book.specs.Causes.{verdict};
ghost use Rattle.test_call.specs.Reply.{test_reply};
ghost use Rattle.list_call.specs.Reply.{list_reply, list_buffer};
ghost use Rattle.one_call.specs.Reply.{one_reply, one_buffer};
ghost use Rattle.near_call.specs.Reply.{near_reply, near_buffer};
ghost use Rattle.place_call.specs.Reply.{place_reply};
ghost use Rattle.count_call.specs.Reply.{count_reply};
ghost use Rattle.lesson.specs.Answers.{check_answer, test_answer, list_answer, one_answer, place_answer, near_answer, count_answer};

// Whether a book is accepted, or the first of causes 1 to 8 that applies.
#[unsafe(no_mangle)]
pub extern "C" fn lesson_check(book: &[u8]) -> u64
    ensures { result ≡ check_answer (verdict book.now) }
{
    lesson::lesson_check(book)
}

// Whether a candidate is a stable state of a book at a layer, with the layers of a set switched off, or the first of causes 1 to 10 and
// 19 that applies.
#[unsafe(no_mangle)]
pub extern "C" fn lesson_test(book: &[u8], layer: u32, off: u32, candidate: &[u8]) -> u64
    ensures { result ≡ test_answer (test_reply book.now layer off candidate.now) }
{
    lesson::lesson_test(book, layer, off, candidate)
}

// Writes the listing of a book at a layer, with the layers of a set switched off, into the buffer, or names the first of causes 1 to 9,
// 19, 12 and 13 that applies and leaves every byte. The answer carries k and g.
#[unsafe(no_mangle)]
pub extern "C" fn lesson_list(book: &[u8], layer: u32, off: u32, buffer: &mut [u8]) -> u64
    ensures answer { result ≡ list_answer (list_reply book.now layer off buffer.old) }
    ensures bytes { buffer.new ≡ list_buffer book.now layer off buffer.old }
{
    lesson::lesson_list(book, layer, off, buffer)
}

// Writes the first record of the listing of a book at a layer, with the layers of a set switched off, into the buffer's first bytes, or
// names the first of causes 1 to 9, 19, 12, 13 and 14 that applies and leaves every byte. The answer carries g.
#[unsafe(no_mangle)]
pub extern "C" fn lesson_one(book: &[u8], layer: u32, off: u32, buffer: &mut [u8]) -> u64
    ensures answer { result ≡ one_answer (one_reply book.now layer off buffer.old) }
    ensures bytes { buffer.new ≡ one_buffer book.now layer off buffer.old }
{
    lesson::lesson_one(book, layer, off, buffer)
}

// Whether a fact stands in every stable state of a book at a layer, with the layers of a set switched off, in some or in none, or the
// first of causes 1 to 9, 19, 11, 12 and 14 that applies. The answer carries the place and g.
#[unsafe(no_mangle)]
pub extern "C" fn lesson_place(book: &[u8], layer: u32, off: u32, fact: u32) -> u64
    ensures { result ≡ place_answer (place_reply book.now layer off fact) }
{
    lesson::lesson_place(book, layer, off, fact)
}

// Writes the record of the stable state of a book at a layer that differs from a candidate in the fewest facts, with the layers of a set
// switched off, into the buffer's first bytes, and among equals the first of the listing; or names the first of causes 1 to 9, 19, 10, 12,
// 13 and 14 that applies and leaves every byte. The answer carries the number of facts that differ and g.
#[unsafe(no_mangle)]
pub extern "C" fn lesson_nearest(
    book: &[u8],
    layer: u32,
    off: u32,
    candidate: &[u8],
    buffer: &mut [u8],
) -> u64
    ensures answer { result ≡ near_answer (near_reply book.now layer off candidate.now buffer.old) }
    ensures bytes { buffer.new ≡ near_buffer book.now layer off candidate.now buffer.old }
{
    lesson::lesson_nearest(book, layer, off, candidate, buffer)
}

// In how many stable states of a book at a layer, with the layers of a set switched off, a condition holds, or the first of causes 1 to
// 9, 19, 16, 17, 11 and 12 that applies. The answer carries the count, k and g.
#[unsafe(no_mangle)]
pub extern "C" fn lesson_count(book: &[u8], layer: u32, off: u32, condition: &[u8]) -> u64
    ensures { result ≡ count_answer (count_reply book.now layer off condition.now) }
{
    lesson::lesson_count(book, layer, off, condition)
}
