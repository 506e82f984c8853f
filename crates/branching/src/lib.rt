// The branching facts of a program, from its table: by both grounds, each once, rising.
#![tactic(auto)]

ghost use Rattle.std.specs.Prelude.{◌≡◌, false, ◌&&◌, ◌||◌, ◌≤◌, ltb, length, replicate};
ghost use Rattle.base.specs.Bounds.{max_atoms, max_branching};
ghost use Rattle.models.specs.Branching.{branching_count};
ghost use Rattle.table.specs.Table.{Tabulates};
ghost use Rattle.table.specs.Tabled.{tabled};
ghost use Rattle.branching.specs.Marks.{BodyMarked, BranchingMarks, Listed};

use base::{ArrayVec, MAX_ATOMS, MAX_BRANCHING};
use format::{Literal, Literals};
use table::{Table, span_bytes};

// Whether a literal makes its fact branch: it is negated, or its rule can displace. No fact is past the bound.
fn branches(l: Literal, rejecting: bool) -> bool
    ensures { result ≡ (ltb l.atom max_atoms && (l.negated || rejecting)) }
{
    l.atom < MAX_ATOMS && (l.negated || rejecting)
}

// Marks the facts of a body that branch.
fn mark_body(body: &[u8], rejecting: bool, marks: &mut [bool; MAX_ATOMS])
    ensures { BodyMarked body.now rejecting marks.old marks.new }
{
    for l in Literals(body) {
        if branches(l, rejecting) {
            marks[l.atom] = true;
        }
    }
}

// Marks the branching facts, where nothing is marked yet: a rule can displace exactly where its mask of overridden layers is not
// empty. How many facts there are plays no part.
// Kept: `Tabulates` in clauses here and of the test: a table that knew its program would ask more of those who make one.
fn mark_branching(table: Table, marks: &mut [bool; MAX_ATOMS])
    requires tabulates { Tabulates (tabled table.book.now table.rows.now 0) table.book.now table.rows.now }
    requires marks_value { marks.old ≡ replicate max_atoms false }
    ensures { BranchingMarks (tabled table.entry.book.now table.entry.rows.now 0) marks.new }
{
    for row in table.rows {
        mark_body(span_bytes(table.book, row.body), row.overridden != 0, marks);
    }
}

// Lists the branching facts, rising, as far as there is room for them, and says how many they are: no more than a search goes through are
// all listed.
pub fn branching_atoms(table: Table, n: usize, atoms: &mut ArrayVec<u32, MAX_BRANCHING>) -> usize
    requires tabulates { Tabulates (tabled table.book.now table.rows.now n) table.book.now table.rows.now }
    requires n_le_max_atoms { n ≤ max_atoms }
    ensures { Listed (tabled table.entry.book.now table.entry.rows.now n) atoms.new result }
{
    let mut marks = [false; MAX_ATOMS];
    mark_branching(table, &mut marks);
    atoms.clear();
    let mut count = 0;
    for (f, branches) in marks[..n].iter().enumerate() {
        if *branches {
            atoms.put(Some(f as u32));
            count += 1;
        }
    }
    count
}

// How many facts branch, whether or not a search goes through them.
pub fn branching_count(table: Table, n: usize) -> usize
    requires tabulates { Tabulates (tabled table.book.now table.rows.now n) table.book.now table.rows.now }
    requires n_le_max_atoms { n ≤ max_atoms }
    ensures { result ≡ branching_count (tabled table.entry.book.now table.entry.rows.now n) }
{
    let mut atoms = ArrayVec::new(0);
    branching_atoms(table, n, &mut atoms)
}
