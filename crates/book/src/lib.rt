// The check of a book: the first of causes 1 to 8 that applies, or accepted, with each layer's mask of the layers below it.
#![tactic(auto)]

ghost use Rattle.std.specs.Prelude.{◌≡◌, ◌+◌, true, false, map, ℕ, drop, IfOk, IfSome, is_none};
ghost use Rattle.base.specs.Bounds.{max_layers};
ghost use Rattle.base.specs.Lists.{all, any};
ghost use Rattle.layers.specs.Layers.{link, repeats, same_arrow};
ghost use Rattle.layers.specs.Masks.{marked, LowerMasks};
ghost use Rattle.format.specs.Book.{records, literals_of, arrow_of, arrow_records, rule_records, rule_section, arrows_of};
ghost use Rattle.format.specs.Sections.{has_broken_section};
ghost use Rattle.book.specs.Causes.{arrow_ok, atom_below, head_ok, rule_ok, is_out_of_range, has_bad_record, tests, first_of, verdict, verdict_of};
ghost use Rattle.book.specs.Header.{HeaderOf};
ghost use Rattle.book.specs.Numbers.{number_of};
ghost use Rattle.std.proofs.Props.{props};

use base::{MAX_ARROWS, MAX_ATOMS, MAX_BODY, MAX_LAYERS, MAX_RULES};
use format::{Literal, Literals, Records, be16, be32, broken_section};

// The causes of documents 01 and 02, in the order of test, with their numbers, which specs/Numbers.antt has too.
#[derive(Clone, Copy, Debug, PartialEq, Eq)]
pub enum Cause {
    TooShort = 1,
    WrongVersion = 2,
    WrongLength = 3,
    BrokenSection = 4,
    OutOfRange = 5,
    BadRecord = 6,
    RepeatedArrow = 7,
    Cycle = 8,
    NoSuchLayer = 9,
    NoSuchLayerOff = 19,
    BadCandidate = 10,
    BadCondition = 16,
    TooDeep = 17,
    NoSuchFact = 11,
    TooManyBranching = 12,
    BufferTooShort = 13,
    NoStableState = 14,
}

// The number of a cause.
impl From<Cause> for u64 {
    ghost from_gives = { λ c n. n ≡ number_of c };

    fn from(c: Cause) -> u64 {
        c as u64
    }
}

// Whether a record is an arrow's: length 2, and layers below L.
#[tactic(auto, unfolding(crate::specs::Causes::arrow_ok, format::specs::Book::arrow_of))]
pub fn arrow_ok(rec: &[u8], layers: usize) -> bool
    ensures { result ≡ arrow_ok layers rec.now }
{
    match rec {
        [earlier, later] => usize::from(*earlier) < layers && usize::from(*later) < layers,
        _ => false,
    }
}

// Whether each record of the arrow section is an arrow's.
pub fn arrows_ok(part: &[u8], layers: usize) -> bool
    ensures { result ≡ all (arrow_ok layers) (records part.now) }
{
    Records(part).all(|rec| arrow_ok(rec, layers))
}

// Whether a literal's fact is below the number of facts.
#[tactic(auto, unfolding(crate::specs::Causes::atom_below))]
pub fn atom_ok(literal: Literal, atoms: usize) -> bool
    ensures { result ≡ atom_below atoms literal }
{
    literal.atom < atoms
}

// Whether the facts of all literals are.
pub fn literals_ok(literals: &[u8], atoms: usize) -> bool
    ensures { result ≡ all (atom_below atoms) (literals_of literals.now) }
{
    Literals(literals).all(|literal| atom_ok(literal, atoms))
}

// Whether a literal is a lawful head: its fact is below the number of facts, or it is the head of a constraint.
#[tactic(auto, unfolding(crate::specs::Causes::head_ok))]
pub fn head_ok(head: Literal, atoms: usize) -> bool
    ensures { result ≡ head_ok atoms head }
{
    atom_ok(head, atoms) || head.is_falsity()
}

// Whether a record is a rule's: length 3 + 2b with b up to MAX_BODY, a layer below L, and facts below n but for the head of a constraint.
#[tactic(auto, using(crate::proofs::RecordLaws::short_rule, crate::proofs::RecordLaws::long_rule, crate::proofs::RecordLaws::even_rule, crate::proofs::RecordLaws::whole_rule, crate::proofs::RecordLaws::rule_is), unfolding(crate::specs::Causes::rule_ok, format::specs::Book::rule_of))]
pub fn rule_ok(rec: &[u8], layers: usize, atoms: usize) -> bool
    ensures { result ≡ rule_ok layers atoms rec.now }
{
    let [layer, a, b, body @ ..] = rec else {
        return false;
    };
    body.len() <= 2 * MAX_BODY
        && body.len() % 2 == 0
        && usize::from(*layer) < layers
        && head_ok(Literal::from_bytes(*a, *b), atoms)
        && literals_ok(body, atoms)
}

// Whether each record of the rule section is a rule's.
pub fn rules_ok(part: &[u8], layers: usize, atoms: usize) -> bool
    ensures { result ≡ all (rule_ok layers atoms) (records part.now) }
{
    Records(part).all(|rec| rule_ok(rec, layers, atoms))
}

// The arrows as masks: bit i of mask j for an arrow from i to j. There are none where two arrows are equal.
#[tactic(auto, using(crate::proofs::MaskLaws::walk_start, crate::proofs::MaskLaws::end_repeated, crate::proofs::MaskLaws::end_reads, crate::proofs::MaskLaws::next_two, crate::proofs::MaskLaws::next_hit, crate::proofs::MaskLaws::next_walked))]
pub fn arrow_masks(part: &[u8]) -> Option<[u32; MAX_LAYERS]>
    requires { all (arrow_ok max_layers) (records part.now) ≡ true }
    ensures repeated { is_none result ≡ repeats (map arrow_of (records part.now)) }
    ensures masks { IfSome result (λ m. (x y : ℕ) → marked m y x ≡ any (λ a. same_arrow a (link x y)) (map arrow_of (records part.now))) }
{
    let mut m = [0; MAX_LAYERS];
    for rec in Records(part) {
        let [earlier, later] = rec else {
            unreachable!()
        };
        let (i, j) = (usize::from(*earlier), usize::from(*later));
        if layers::bit_of(&m, j, i) {
            return None;
        }
        layers::set_bit(&mut m, j, i);
    }
    Some(m)
}

// A book whose sections are whole, and what its header says: the number of facts, the number of layers, and where the rule section starts.
#[derive(Clone, Copy)]
pub struct Header<'a> {
    pub book: &'a [u8],
    pub atoms: usize,
    pub layers: usize,
    pub rules: usize,
    pub ghost says: { HeaderOf book.now atoms layers rules } by { Prim.hlevel props },
}

impl<'a> Header<'a> {
    // Reads the header, once the sections are whole.
    #[tactic(auto, using(format::proofs::SectionLaws::laid, crate::proofs::RangeLaws::header_of))]
    pub fn read(book: &'a [u8]) -> Header<'a>
        requires { has_broken_section book.now ≡ false }
        ensures { result.book.now ≡ book.now }
    {
        Header {
            book,
            atoms: be16(book, 5),
            layers: usize::from(book[7]),
            rules: 14 + be32(book, 8),
        }
    }

    // The bytes of the arrow section's records.
    #[tactic(auto, using(crate::proofs::RangeLaws::header_in, format::proofs::SectionLaws::arrow_part))]
    fn arrow_part(&self) -> &'a [u8]
        ensures { records result.now ≡ arrow_records self.now.book.now }
    {
        &self.book[14..self.rules]
    }

    // Where the rule section's records start, after its length and its count.
    #[tactic(auto, using(crate::proofs::RangeLaws::header_in))]
    pub fn rules_from(&self) -> usize
        ensures { result ≡ rule_section self.now.book.now + 6 }
    {
        self.rules + 6
    }

    // The bytes of the rule section's records.
    #[tactic(auto, using(crate::proofs::RangeLaws::header_in, format::proofs::SectionLaws::laid, format::proofs::SectionLaws::rule_part))]
    fn rule_part(&self) -> &'a [u8]
        ensures { records result.now ≡ rule_records self.now.book.now }
    {
        &self.book[self.rules_from()..]
    }

    // Cause 5.
    #[tactic(auto, using(crate::proofs::RangeLaws::header_in), unfolding(crate::specs::Causes::is_out_of_range, crate::specs::Causes::within, format::specs::Book::section_count))]
    pub fn out_of_range(&self) -> bool
        ensures { result ≡ is_out_of_range self.now.book.now }
    {
        !(1..=MAX_ATOMS).contains(&self.atoms)
            || !(1..=MAX_LAYERS).contains(&self.layers)
            || MAX_ARROWS < be16(self.book, 12)
            || MAX_RULES < be16(self.book, self.rules + 4)
    }

    // Cause 6.
    #[tactic(auto, unfolding(crate::specs::Causes::has_bad_record))]
    pub fn bad_record(&self) -> bool
        ensures { result ≡ has_bad_record self.now.book.now }
    {
        !arrows_ok(self.arrow_part(), self.layers)
            || !rules_ok(self.rule_part(), self.layers, self.atoms)
    }

    // The tests from cause 7 on. The test of cause 8 needs each layer's mask of the layers below it, and so does every call that drives
    // a layer: an accepted book is answered by its masks, the closure of its arrows.
    #[tactic(auto, using(crate::proofs::CycleLaws::part_good, crate::proofs::CycleLaws::seven_is, crate::proofs::CycleLaws::masks_empty, crate::proofs::CycleLaws::count_few), unfolding(crate::specs::Causes::tests, crate::specs::Causes::first_of, crate::specs::Causes::verdict_if))]
    pub fn check_arrows(&self) -> Result<[u32; MAX_LAYERS], Cause>
        requires { (is_out_of_range self.now.book.now ≡ false) × (has_bad_record self.now.book.now ≡ false) }
        ensures verdict { verdict_of result ≡ first_of (drop 6 (tests self.now.book.now)) }
        ensures masks { IfOk result (LowerMasks (arrows_of self.now.book.now)) }
    {
        let masks = arrow_masks(self.arrow_part()).ok_or(Cause::RepeatedArrow)?;
        let lower = layers::transitive_closure(masks, self.layers);
        if layers::has_cycle(&lower, self.layers) {
            return Err(Cause::Cycle);
        }
        Ok(lower)
    }

    // The tests from cause 5 on.
    #[tactic(auto, unfolding(crate::specs::Causes::tests, crate::specs::Causes::first_of, crate::specs::Causes::verdict_if))]
    fn check(&self) -> Result<[u32; MAX_LAYERS], Cause>
        ensures verdict { verdict_of result ≡ first_of (drop 4 (tests self.now.book.now)) }
        ensures masks { IfOk result (LowerMasks (arrows_of self.now.book.now)) }
    {
        if self.out_of_range() {
            return Err(Cause::OutOfRange);
        }
        if self.bad_record() {
            return Err(Cause::BadRecord);
        }
        self.check_arrows()
    }
}

// An accepted book's masks, or the first of causes 1 to 8 that applies.
#[tactic(auto, unfolding(crate::specs::Causes::verdict, crate::specs::Causes::tests, crate::specs::Causes::first_of, crate::specs::Causes::verdict_if, crate::specs::Causes::is_too_short, crate::specs::Causes::has_wrong_version, crate::specs::Causes::has_wrong_length, format::specs::Book::version, format::specs::Book::length_field))]
pub fn check_book(book: &[u8]) -> Result<[u32; MAX_LAYERS], Cause>
    ensures verdict { verdict_of result ≡ verdict book.now }
    ensures masks { IfOk result (LowerMasks (arrows_of book.now)) }
{
    if book.len() < 20 {
        return Err(Cause::TooShort);
    }
    if book[0] != 1 {
        return Err(Cause::WrongVersion);
    }
    if be32(book, 1) != book.len() {
        return Err(Cause::WrongLength);
    }
    if broken_section(book) {
        return Err(Cause::BrokenSection);
    }
    Header::read(book).check()
}

// The verdict alone.
pub fn check(book: &[u8]) -> Result<(), Cause>
    ensures { result ≡ verdict book.now }
{
    check_book(book)?;
    Ok(())
}
