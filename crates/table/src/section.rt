// The rules' section of a book, and what one walk over its records gathers.

ghost use Rattle.std.specs.Prelude.{List, ℕ, Bool, ◌≡◌, ◌+◌, ◌<◌, ◌≤◌, length, get_or, drop, not, ◌&&◌};
ghost use Rattle.std.specs.Iterator.{item_count};
ghost use Rattle.std.proofs.Props.{props};
ghost use Rattle.base.specs.Bounds.{max_layers};
ghost use Rattle.format.specs.Book.{Rule, is_constraint};
ghost use Rattle.table.specs.Records.{rule_at, RuleAt, Gives, Gathered, RowOf, BodyOf};
ghost use Rattle.table.specs.Filled.{Filled};
ghost use Rattle.table.specs.Rows.{in_mask};
ghost use Rattle.table.specs.Table.{RuleRecords};

use crate::{Row, Span, has_layer, name_of};
use base::MAX_RULES;
use format::Literal;

// A record of the rules' section, by its offset in the book.
// Kept: its bytes by their offsets: where the body stands is an offset too, which a slice of the record would have to have beside it.
#[derive(Clone, Copy)]
pub struct RuleRecord<'a> {
    pub book: &'a [u8],
    pub at: usize,
    pub ghost whole: { RuleAt book.now at },
    pub ghost short: { length book.now < 65536 },
}

impl<'a> RuleRecord<'a> {
    // The layer of its rule.
    #[tactic(auto, unfolding(crate::specs::Records::rule_at))]
    pub fn layer(self) -> usize
        ensures { (result ≡ (rule_at self.entry.book.now self.entry.at).layer) × (result < max_layers) }
    {
        usize::from(self.book[self.at + 1])
    }

    // The head of its rule.
    #[tactic(auto, unfolding(crate::specs::Records::rule_at))]
    pub fn head(self) -> Literal
        ensures { result ≡ (rule_at self.entry.book.now self.entry.at).head }
    {
        Literal::from_bytes(self.book[self.at + 2], self.book[self.at + 3])
    }

    // Where the body of its rule stands.
    #[tactic(auto, unfolding(crate::specs::Records::rule_at))]
    pub fn body(self) -> Span
        ensures { BodyOf self.entry.book.now result (rule_at self.entry.book.now self.entry.at) }
    {
        Span {
            start: (self.at + 4) as u32,
            size: u16::from(self.book[self.at]) - 3,
        }
    }

    // The offset behind it.
    fn end(self) -> usize
        ensures { result ≡ self.entry.at + 1 + get_or self.entry.book.now self.entry.at 0 }
    {
        self.at + 1 + usize::from(self.book[self.at])
    }
}

// What one walk over the rules' records gathers: the row of each rule, or where the body of each constraint stands.
pub trait FromRecord: Copy {
    // which rules give something
    ghost takes: { Rule → Bool };

    // what is gathered stands for a rule of the book
    ghost stands: { List ℕ → Self → Rule → Type 0 };

    fn from_record(from: RuleRecord) -> Option<Self>
        ensures { Gives (takes (rule_at from.entry.book.now from.entry.at)) (λ e. stands from.entry.book.now e (rule_at from.entry.book.now from.entry.at)) result };
}

impl FromRecord for Row {
    ghost takes = { λ r. not (is_constraint r) };

    ghost stands = { RowOf };

    // A constraint has no row: its head has no name.
    #[tactic(auto, unfolding(format::specs::Book::is_constraint, crate::specs::Records::rule_at))]
    fn from_record(from: RuleRecord) -> Option<Row> {
        let head = from.head();
        if head.is_falsity() {
            return None;
        }
        Some(Row {
            body: from.body(),
            head: name_of(head) as u16,
            layer: from.layer() as u16,
            overridden: 0,
        })
    }
}

impl FromRecord for Span {
    ghost takes = { is_constraint };

    ghost stands = { BodyOf };

    #[tactic(auto, unfolding(format::specs::Book::is_constraint))]
    fn from_record(from: RuleRecord) -> Option<Span> {
        if !from.head().is_falsity() {
            return None;
        }
        Some(from.body())
    }
}

// What a record gives, if the mask has its layer.
#[tactic(auto, unfolding(crate::specs::Rows::in_mask))]
fn entry_of<E: FromRecord>(from: RuleRecord, mask: u32) -> Option<E>
    ensures { Gives (in_mask mask (rule_at from.entry.book.now from.entry.at) && E.takes (rule_at from.entry.book.now from.entry.at)) (λ e. E.stands from.entry.book.now e (rule_at from.entry.book.now from.entry.at)) result }
{
    if !has_layer(mask, from.layer()) {
        return None;
    }
    E::from_record(from)
}

// The rules' section of a book: its records are the bytes from `first` on.
#[derive(Clone, Copy)]
pub struct RuleSection<'a> {
    pub book: &'a [u8],
    pub first: usize,
    pub ghost records: { RuleRecords (drop first book.now) } by { Prim.hlevel props },
    pub ghost starts: { first ≤ length book.now },
    pub ghost short: { length book.now < 65536 },
}

// Its records, one after the other.
impl<'a> Iterator for RuleSection<'a> {
    type Item = RuleRecord<'a>;

    ghost use Rattle.table.specs.Section.{GivesRecord};

    ghost next_gives = { GivesRecord };

    ghost remaining = { item_count (λ s. drop s.first s.book.now) };

    #[tactic(auto, using(crate::proofs::WalkLaws::record_here, crate::proofs::WalkLaws::records_left, crate::proofs::WalkLaws::rules_left, crate::proofs::WalkLaws::no_rules_left))]
    fn next(&mut self) -> Option<RuleRecord<'a>> {
        if self.book.len() <= self.first {
            return None;
        }
        let record = RuleRecord {
            book: self.book,
            at: self.first,
        };
        self.first = record.end();
        Some(record)
    }
}

// Writes what the rules give whose layer is in the mask, in their order, and says how many there are: one walk over the records.
// Kept: no heap: the array is the caller's, written at a count, and the rows' masks are written into its filled part afterwards, which no
// `ArrayVec` lends.
pub fn gather<E: FromRecord>(rules: RuleSection, mask: u32, out: &mut [E; MAX_RULES]) -> usize
    ensures { Filled (Gathered E.takes E.stands rules.entry.book.now rules.entry.first mask) out.new result }
{
    let mut count = 0;
    for record in rules {
        if let Some(entry) = entry_of::<E>(record, mask) {
            out[count] = entry;
            count += 1;
        }
    }
    count
}
