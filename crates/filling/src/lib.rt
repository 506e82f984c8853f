// Filling: two arrays of marks, reached facts and reached negations, from the negations of a start until nothing is added. It works on
// the rows of the table and the masks of the rejected ones, so that the test of a candidate and the search share it.
// The arrays are lent, with a place for each fact of the book, so that no step grows with the bound on facts.
// `hints` is what one filling leaves for the next. Nothing rests on it but speed, so no contract speaks of it.
#![tactic(auto)]

ghost use Rattle.std.specs.Prelude.{IfSome, ◌+◌, ◌*◌, ◌/◌, ◌≡◌, false, ◌<◌, ◌≤◌, length, get_or, replicate};
ghost use Rattle.std.specs.Result.{is_err};
ghost use Rattle.base.specs.Lists.{all};
ghost use Rattle.format.specs.Book.{literal_of, literals_of};
ghost use Rattle.table.specs.Names.{literal_named};
ghost use Rattle.table.specs.Rows.{row_count, row_at};
ghost use Rattle.filling.specs.Marks.{Room, literal_marked, adds, Grown, Tried, PassEnd, FilledOn, Fills};

use base::{MAX_ATOMS, MAX_BODY, MAX_NAMES, MAX_RULES};
use format::{Literal, Literals};
pub use hint::Hints;
use table::{Table, TableRow, opposite};

mod hint;

// Turns of the waiting lists, more than a lawful book takes: a row is taken up once, tried then and once more for each literal of its
// body, since it waits once a literal; and its head is taken up once.
const TURNS: usize = (MAX_BODY + 4) * MAX_RULES;

// The two arrays of marks, as a step reads them.
#[derive(Clone, Copy)]
struct Marks<'a> {
    positive: &'a [bool],
    negative: &'a [bool],
    ghost same: { length negative.now ≡ length positive.now },
}

impl Marks<'_> {
    // The mark of a name.
    // Kept: by the name. By its literal was tried, and slower: the fact is held against the length once more for each row of a pass.
    #[tactic(auto, using(crate::proofs::MarkLaws::marked_low, crate::proofs::MarkLaws::marked_high, crate::proofs::MarkLaws::atom_low, crate::proofs::MarkLaws::atom_high), unfolding(models::specs::StableModels::atom_holds))]
    fn name(&self, h: usize) -> bool
        requires { (literal_named h).atom < length self.now.positive.now }
        ensures { result ≡ literal_marked self.now.positive.now self.now.negative.now (literal_named h) }
    {
        if h < MAX_ATOMS {
            self.positive[h]
        } else {
            self.negative[h - MAX_ATOMS]
        }
    }

    // The mark of a literal. Both arrays are read, so that the sign is no branch: bodies mix signs as they like. A fact past them has
    // no mark.
    #[tactic(auto, using(crate::proofs::MarkLaws::marked_past, crate::proofs::MarkLaws::negated_marked, crate::proofs::MarkLaws::plain_marked))]
    fn literal(&self, l: Literal) -> bool
        ensures { result ≡ literal_marked self.now.positive.now self.now.negative.now l }
    {
        if self.positive.len() <= l.atom {
            return false;
        }
        let fact = self.positive[l.atom];
        let negation = self.negative[l.atom];
        if l.negated { negation } else { fact }
    }

    // Whether every literal of a body's bytes is marked. The one numbered `watch` is tried first.
    fn body(&self, body: &[u8], watch: usize) -> bool
        ensures { result ≡ all (literal_marked self.now.positive.now self.now.negative.now) (literals_of body.now) }
    {
        if watch < body.len() / 2 && !self.literal(literal_at(body, watch)) {
            return false;
        }
        Literals(body).all(|l| self.literal(l))
    }

    // The number of a literal of a body's bytes that is not marked, of those numbered from `from` up to `to`.
    fn unmarked_between(&self, body: &[u8], from: usize, to: usize) -> Option<usize>
        requires { to ≤ length body.now / 2 }
        ensures { IfSome result (λ i. i < length body.now / 2) }
    {
        (from..to).find(|i| !self.literal(literal_at(body, *i)))
    }

    // The number of a literal of a body's bytes that is not marked, looked for from the one numbered `watch` on and then from the first
    // on.
    // Kept: a match, since by `or_else` the check does not find the bound.
    fn unmarked(&self, body: &[u8], watch: usize) -> Option<usize>
        ensures { IfSome result (λ i. i < length body.now / 2) }
    {
        let count = body.len() / 2;
        let from = watch.min(count);
        match self.unmarked_between(body, from, count) {
            Some(i) => Some(i),
            None => self.unmarked_between(body, 0, from),
        }
    }
}

// The literal of a body's bytes by its number.
// Kept: by an index, as is the search for one to wait for: over `Literals` from a number on, that took a tenth more of a filling's time.
fn literal_at(body: &[u8], i: usize) -> Literal
    requires { i < length body.now / 2 }
    ensures { result ≡ literal_of (get_or body.now (2 * i) 0) (get_or body.now (2 * i + 1) 0) }
{
    Literal::from_bytes(body[2 * i], body[2 * i + 1])
}

// A fact is reached both ways.
#[derive(Clone, Copy, PartialEq, Eq, Debug)]
pub struct BothWays;

// A rule of a table by its row, with the masks of the rejected ones.
#[derive(Clone, Copy)]
struct RuleRow<'a> {
    row: TableRow<'a>,
    rejects: &'a [u32; MAX_NAMES],
}

// Kept: marks are two slices, and `Room` stands at each step: a struct of two `&mut` would say at each that it still holds those two.
impl RuleRow<'_> {
    // Whether it adds its head: the head is not marked, the rule is alive and its body is marked.
    #[tactic(auto, using(crate::proofs::MarkLaws::adds_row))]
    fn adds(&self, marks: &Marks, hints: &Hints) -> bool
        requires { Room self.now.row.table.rows.now marks.now.positive.now marks.now.negative.now }
        ensures { result ≡ adds marks.now.positive.now marks.now.negative.now self.now.rejects.now (row_at self.now.row.table.book.now self.now.row.table.rows.now self.now.row.j) }
    {
        !marks.name(self.row.head())
            && self.row.alive(self.rejects)
            && marks.body(self.row.body(), hints.watched(self.row.j))
    }

    // Marks its head if it adds that, and says whether it did. Where the opposite is marked, it marks nothing. Inlined, since it is what a
    // pass does with each row.
    #[inline(always)]
    #[tactic(auto, using(crate::proofs::MarkLaws::head_within, crate::proofs::MarkLaws::opposite_within, crate::proofs::MarkLaws::atom_low, crate::proofs::MarkLaws::atom_high))]
    fn add_head(
        &self,
        positive: &mut [bool],
        negative: &mut [bool],
        hints: &Hints,
    ) -> Result<bool, BothWays>
        requires { Room self.now.row.table.rows.now positive.old negative.old }
        ensures { Tried self.now.row.table.book.now self.now.row.table.rows.now self.now.rejects.now self.now.row.j positive.old negative.old positive.new negative.new result }
    {
        let marks = Marks { positive, negative };
        if !self.adds(&marks, hints) {
            return Ok(false);
        }
        let h = self.row.head();
        if marks.name(opposite(h)) {
            return Err(BothWays);
        }
        if h < MAX_ATOMS {
            positive[h] = true;
        } else {
            negative[h - MAX_ATOMS] = true;
        }
        Ok(true)
    }

    // Lets it wait for a literal of its body that is not marked, and says whether there is one. It is looked for from the one on that the
    // row watches, which stays from filling to filling: what kept a row from adding its head at one setting often does at the next.
    fn wait(&self, marks: &Marks, hints: &mut Hints) -> bool {
        let body = self.row.body();
        match marks.unmarked(body, hints.watched(self.row.j)) {
            Some(i) => {
                hints.wait(self.row.j, i, literal_at(body, i));
                true
            }
            None => false,
        }
    }

    // Tries it where it may still add its head: adds that, or lets the row wait. Says whether the head was added.
    fn settle(&self, positive: &mut [bool], negative: &mut [bool], hints: &mut Hints) -> bool
        requires { Room self.now.row.table.rows.now positive.old negative.old }
        ensures { Grown self.now.row.table.book.now self.now.row.table.rows.now self.now.rejects.now positive.old negative.old positive.new negative.new }
    {
        let marks = Marks { positive, negative };
        if marks.name(self.row.head())
            || !self.row.alive(self.rejects)
            || self.wait(&marks, hints)
        {
            return false;
        }
        if let Ok(true) = self.add_head(positive, negative, hints) {
            hints.remember(self.row.j);
            return true;
        }
        false
    }
}

// The rules of a table, with the masks of the rejected ones: bit i at name h says that those of layer i with that head are rejected.
#[derive(Clone, Copy)]
pub struct Rules<'a> {
    pub table: Table<'a>,
    pub rejects: &'a [u32; MAX_NAMES],
}

impl<'a> Rules<'a> {
    fn row(&self, j: usize) -> RuleRow<'a>
        requires { j < row_count self.now.table.rows.now }
        ensures row_is { (result.row.table ≡ self.now.table) × (result.row.j ≡ j) }
        ensures rejects_is { result.rejects ≡ self.now.rejects }
    {
        RuleRow {
            row: self.table.row(j),
            rejects: self.rejects,
        }
    }

    // Tries the rows of the trail in their order: what was reached one after the other at the last setting is often reached so at the
    // next.
    fn replay(&self, positive: &mut [bool], negative: &mut [bool], hints: &Hints)
        requires { Room self.now.table.rows.now positive.old negative.old }
        ensures { Grown self.now.table.book.now self.now.table.rows.now self.now.rejects.now positive.old negative.old positive.new negative.new }
    {
        for row in hints.trail() {
            let j = usize::from(*row);
            if j < self.table.len() {
                let _ = self.row(j).add_head(positive, negative, hints);
            }
        }
    }

    // Marks more of what follows, by waiting lists: a row waits for a literal of its body that is not marked, and is tried again when that
    // one is. Only the order of trying is new: what is added is tested on the spot, and the passes of a filling say when nothing is left.
    // `waiting` is the next row of the list in hand, `fresh` the rows not tried yet. No lawful book takes all the turns.
    fn propagate(&self, positive: &mut [bool], negative: &mut [bool], hints: &mut Hints)
        requires { Room self.now.table.rows.now positive.old negative.old }
        ensures { Grown self.now.table.book.now self.now.table.rows.now self.now.rejects.now positive.old negative.old positive.new negative.new }
    {
        let count = self.table.len();
        hints.begin(positive.len());
        let mut fresh = 0..count;
        let mut waiting: Option<usize> = None;
        for _ in 0..TURNS {
            if let Some(j) = waiting {
                if count <= j {
                    return;
                }
                waiting = hints.next_waiting(j);
                let rule = self.row(j);
                if rule.settle(positive, negative, hints) {
                    hints.push_marked(rule.row.head());
                }
            } else if let Some(h) = hints.pop_marked() {
                waiting = hints.first_waiting(h);
            } else if let Some(j) = fresh.next() {
                hints.take_up(j);
                waiting = Some(j);
            } else {
                return;
            }
        }
    }

    // One pass over the rows: marks the head of each that adds it, until a fact is reached both ways. Says whether it added a mark.
    fn pass(
        &self,
        positive: &mut [bool],
        negative: &mut [bool],
        hints: &mut Hints,
    ) -> Result<bool, BothWays>
        requires { Room self.now.table.rows.now positive.old negative.old }
        ensures { PassEnd self.now.table.book.now self.now.table.rows.now self.now.rejects.now positive.old negative.old positive.new negative.new result }
    {
        let mut added = false;
        for j in 0..self.table.len() {
            if self.row(j).add_head(positive, negative, hints)? {
                hints.remember(j);
                added = true;
            }
        }
        Ok(added)
    }

    // The two arrays, filled from the marks in hand until nothing is added, or until a fact is reached both ways. Passes over the rows say
    // when nothing is added. Few books need more than two; where the second still adds, waiting lists go on from there, and the next
    // filling begins with the trail.
    #[tactic(auto, using(crate::proofs::GrowingLaws::grown_fewer, crate::proofs::GrowingLaws::grown_both, crate::proofs::FillingLaws::filled, crate::proofs::MarkLaws::room_same))]
    pub fn fill_on(
        &self,
        positive: &mut [bool],
        negative: &mut [bool],
        hints: &mut Hints,
    ) -> Result<(), BothWays>
        requires { Room self.now.table.rows.now positive.old negative.old }
        ensures { FilledOn self.now.table.book.now self.now.table.rows.now self.now.rejects.now positive.old negative.old positive.new negative.new (is_err result) }
    {
        self.replay(positive, negative, hints);
        let added = self.pass(positive, negative, hints)?;
        if added {
            while self.pass(positive, negative, hints)? {
                self.propagate(positive, negative, hints);
            }
        }
        Ok(())
    }

    // The two arrays, reached facts and reached negations, filled until nothing is added, or until a fact is reached both ways: no fact is
    // reached at first, and of the negations those that are marked.
    #[tactic(auto, using(crate::proofs::FillingLaws::filled_from_start))]
    pub fn fill(
        &self,
        positive: &mut [bool],
        negative: &mut [bool],
        hints: &mut Hints,
    ) -> Result<(), BothWays>
        requires { Room self.now.table.rows.now positive.old negative.old }
        ensures { Fills self.now.table.book.now self.now.table.rows.now self.now.rejects.now negative.old positive.new negative.new (is_err result) }
    {
        clear_marks(positive);
        self.fill_on(positive, negative, hints)
    }
}

// Takes all marks away.
pub fn clear_marks(marks: &mut [bool])
    ensures { marks.new ≡ replicate (length marks.old) false }
{
    marks.fill(false);
}
