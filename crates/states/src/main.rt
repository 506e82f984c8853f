// The program `states` of document 01: reads a book from standard input, drives its last layer, and prints its stable states, or
// `refused N`. What is printed is the listing's bytes as text; the listing itself is proved.
#![tactic(auto)]

ghost use Rattle.std.specs.Prelude.{◌≤◌, IfOk, length};

use base::MAX_ATOMS;
use book::Cause;
use candidate::bit_at;
use drive::list;
use list_call::Listed;
use records::HEAD_SIZE;
use std::io;
use std::io::{Read, Write};

// The most bytes of input that are taken for a book.
const MOST_INPUT: usize = 65536;

// Bytes that are read: one more than a book may have shows that there is more input.
const INPUT: usize = MOST_INPUT + 1;

// Bytes of the buffer for the listing. A book whose listing is longer is refused 13.
const ROOM: usize = 65536;

// Bytes of a line: a digit for each fact, and its end.
const LINE: usize = MAX_ATOMS + 1;

// Where a book has the number of its layers, and a listing that of its facts.
const LAYERS_AT: usize = 7;

const FACTS_AT: usize = 5;

fn print_refused<W: Write>(out: &mut W, cause: Cause) -> io::Result<()> {
    let number = u64::from(cause);
    writeln!(out, "refused {number}")
}

// A fact's digit in a record.
fn digit(record: &[u8], fact: usize) -> u8 {
    b'0' + u8::from(bit_at(record, fact))
}

// One line, written at once: a digit for each fact from fact 0. No book has more than MAX_ATOMS.
fn print_state<W: Write>(out: &mut W, record: &[u8], facts: usize) -> io::Result<()> {
    let mut line = [b'\n'; LINE];
    let end = facts.min(MAX_ATOMS);
    for (fact, place) in line[..end].iter_mut().enumerate() {
        *place = digit(record, fact);
    }
    out.write_all(&line[..=end])
}

// The head's numbers, and a line for each of the records behind the listing's head.
fn print_listing<W: Write>(out: &mut W, listed: Listed, listing: &[u8; ROOM]) -> io::Result<()> {
    let facts = usize::from(u16::from_be_bytes([listing[FACTS_AT], listing[FACTS_AT + 1]]));
    let states = listed.states;
    let branching = listed.branching;
    writeln!(out, "facts {facts} models {states} branching {branching}")?;
    let size = facts.div_ceil(8).max(1);
    for record in listing[HEAD_SIZE..].chunks_exact(size).take(states) {
        print_state(out, record, facts)?;
    }
    Ok(())
}

// The last layer, L - 1. A book with no layer, or with too few bytes to say, is refused whatever layer is driven.
fn last_layer(book: &[u8]) -> u32 {
    book.get(LAYERS_AT)
        .map_or(0, |layers| u32::from(layers.saturating_sub(1)))
}

// Nothing is switched off.
fn show<W: Write>(out: &mut W, book: &[u8]) -> io::Result<()> {
    let mut buffer: [u8; ROOM] = [0; ROOM];
    match list(book, last_layer(book), 0, &mut buffer) {
        Ok(listed) => print_listing(out, listed, &buffer),
        Err(cause) => print_refused(out, cause),
    }
}

// Fills the bytes from the front until they are full or the input ends, and says how many came.
fn read_input<R: Read>(input: &mut R, bytes: &mut [u8]) -> io::Result<usize>
    ensures { IfOk result (λ n. n ≤ length bytes.new) }
{
    let room = bytes.len();
    let came = io::copy(&mut input.take(room as u64), &mut &mut bytes[..])?;
    Ok(room.min(came as usize))
}

fn main(rt: HostRuntime) -> io::Result<()> {
    let mut input: [u8; INPUT] = [0; INPUT];
    let len = read_input(&mut rt.reader(), &mut input)?;
    let mut out = io::writer(&rt);
    if MOST_INPUT < len {
        return print_refused(&mut out, Cause::WrongLength);
    }
    show(&mut out, &input[..len])
}
