// The book's bytes: big-endian fields, literals, records by length byte, and whether both sections are whole (cause 4).
// Every count and length is compared with what the walk over the records finds before anything uses it.
#![tactic(auto)]

ghost use Rattle.std.specs.Prelude.{◌≡◌, ◌&&◌, ◌+◌, ◌≤◌, ◌<◌, eqb, length};
ghost use Rattle.std.specs.Iterator.{YieldsFirst, YieldsFirstBy, item_count};
ghost use Rattle.format.specs.Book.{u16_at, u32_at, records, meets_end, literal_of, literals_of, is_falsity};
ghost use Rattle.format.specs.Sections.{whole_section, has_broken_section};

// A literal: a fact, or its negation.
#[derive(Clone, Copy, PartialEq, Eq)]
pub struct Literal {
    pub atom: usize,
    pub negated: bool,
}

impl Literal {
    // Two bytes, big-endian: the fact's number, and 32,768 more where it is negated.
    #[tactic(auto, unfolding(crate::specs::Book::literal_of))]
    pub fn from_bytes(a: u8, b: u8) -> Literal
        ensures { result ≡ literal_of a b }
    {
        // Kept: a rule of the project: documents give a literal as a number with its sign in the top bit, and it is read here alone.
        let number = usize::from(u16::from_be_bytes([a, b]));
        Literal {
            atom: number % 32768,
            negated: 32768 <= number,
        }
    }

    // Whether it is the plain 32,767, the head of a constraint.
    #[tactic(auto, unfolding(crate::specs::Book::is_falsity))]
    pub fn is_falsity(self) -> bool
        ensures { result ≡ is_falsity self }
    {
        self.atom == 32767 && !self.negated
    }
}

// The literals of a body's bytes, one after the other; a byte left over at the end is none.
#[derive(Clone, Copy)]
pub struct Literals<'a>(pub &'a [u8]);

impl<'a> Iterator for Literals<'a> {
    type Item = Literal;

    ghost next_gives = { YieldsFirst (λ s. literals_of s.0.now) };

    ghost remaining = { item_count (λ s. s.0.now) };

    #[tactic(auto, unfolding(crate::specs::Book::literals_of))]
    fn next(&mut self) -> Option<Literal> {
        let ([a, b], rest) = self.0.split_first_chunk::<2>()?;
        self.0 = rest;
        Some(Literal::from_bytes(*a, *b))
    }
}

// The records of a section's bytes, one after the other: each is cut where its length byte says, or where the bytes end.
#[derive(Clone, Copy)]
pub struct Records<'a>(pub &'a [u8]);

impl<'a> Iterator for Records<'a> {
    type Item = &'a [u8];

    ghost next_gives = { YieldsFirstBy (λ r. r.now) (λ s. records s.0.now) };

    ghost remaining = { item_count (λ s. s.0.now) };

    #[tactic(auto, using(crate::proofs::Offsets::records_first), unfolding(crate::specs::Book::records, crate::specs::Book::records_in))]
    fn next(&mut self) -> Option<&'a [u8]> {
        let (len, rest) = self.0.split_first()?;
        let (record, others) = rest.split_at(rest.len().min(usize::from(*len)));
        self.0 = others;
        Some(record)
    }
}

// The two bytes at an offset as a big-endian number.
// Kept: the documents give each field by its offset, and a chunk of s[at..] would be an Option that is never None.
#[tactic(auto, unfolding(crate::specs::Book::u16_at))]
pub fn be16(s: &[u8], at: usize) -> usize
    requires { at + 2 ≤ length s.now }
    ensures value { result ≡ u16_at s.now at }
    ensures upper_bound { result < 65536 }
{
    usize::from(u16::from_be_bytes([s[at], s[at + 1]]))
}

// The four bytes at an offset as a big-endian number.
// Kept: by the field's offset, as in `be16`.
#[tactic(auto, unfolding(crate::specs::Book::u32_at))]
pub fn be32(s: &[u8], at: usize) -> usize
    requires { at + 4 ≤ length s.now }
    ensures value { result ≡ u32_at s.now at }
    ensures upper_bound { result < 4294967296 }
{
    u32::from_be_bytes([s[at], s[at + 1], s[at + 2], s[at + 3]]) as usize
}

// Whether the records of a section's bytes meet its end, and their number is the count.
#[tactic(auto, using(crate::proofs::Offsets::meets_next, crate::proofs::Offsets::records_next), unfolding(crate::specs::Book::meets_end, crate::specs::Book::meets_end_in, crate::specs::Book::records, crate::specs::Book::records_in))]
pub fn whole_records(part: &[u8], count: usize) -> bool
    ensures { result ≡ (meets_end part.now && eqb (length (records part.now)) count) }
{
    let mut rest = part;
    let mut n: usize = 0;
    // Kept: the walk ends where a record is cut short, which `Records` does not tell; it counts no index.
    while let Some((len, others)) = rest.split_first() {
        let Some((_, others)) = others.split_at_checked(usize::from(*len)) else {
            return false;
        };
        rest = others;
        n += 1;
    }
    n == count
}

// Whether the section at an offset lies inside the book, its records meet its end, and their number is its count.
// Compared by differences, so that a length field of up to 2^32 - 1 cannot wrap.
#[tactic(auto, unfolding(crate::specs::Sections::whole_section, crate::specs::Book::section_end, crate::specs::Book::section_records, crate::specs::Book::section_bytes, crate::specs::Book::section_count))]
pub fn whole_section(book: &[u8], at: usize) -> bool
    ensures { result ≡ whole_section book.now at }
{
    if book.len() < at || book.len() - at < 6 {
        return false;
    }
    let from = at + 6;
    let bytes = be32(book, at);
    if book.len() - from < bytes {
        return false;
    }
    whole_records(&book[from..from + bytes], be16(book, at + 4))
}

// Cause 4.
#[tactic(auto, unfolding(crate::specs::Sections::has_broken_section, crate::specs::Book::section_end, crate::specs::Book::section_bytes, crate::specs::Book::rule_section))]
pub fn broken_section(book: &[u8]) -> bool
    ensures { result ≡ has_broken_section book.now }
{
    if !whole_section(book, 8) {
        return true;
    }
    let second = 14 + be32(book, 8);
    !whole_section(book, second) || second + 6 + be32(book, second) != book.len()
}
