// The candidate test: is this interpretation a stable model of the table's program? What depends on the candidate alone
// (which rows are rejected, which atoms are supported) is worked out once; then the marks are filled from the defaults and compared
// with the candidate.
#![tactic(auto)]

ghost use Rattle.std.specs.Prelude.{◌≡◌, cond, ◌≤◌, length, replicate};
ghost use Rattle.std.specs.Result.{is_err};
ghost use Rattle.base.specs.Bounds.{max_atoms, max_names};
ghost use Rattle.base.specs.Lists.{all, up_to};
ghost use Rattle.models.specs.StableModels.{body_holds, stable, WellFormed};
ghost use Rattle.table.specs.Rows.{row_count, row_at, overridden};
ghost use Rattle.table.specs.Table.{Tabulates};
ghost use Rattle.table.specs.Tabled.{tabled};
ghost use Rattle.tester.specs.Agreement.{marks_agree};
ghost use Rattle.tester.specs.Masks.{RejectedMasks, Supports, Others};

use base::{MAX_ATOMS, MAX_NAMES};
use filling::{Hints, Rules, clear_marks};
use table::{Table, TableRow, atom_holds, literal_holds, literal_named, opposite};

// The layers in which a row rejects rules: none, unless its body holds.
fn row_mask(row: TableRow, m: &[bool]) -> u32
    ensures { result ≡ cond (body_holds m.now (row_at row.entry.table.book.now row.entry.table.rows.now row.entry.j)) (overridden row.entry.table.rows.now row.entry.j) 0 }
{
    let mask = row.overridden();
    if mask != 0 && row.holds(m) { mask } else { 0 }
}

// Bit i at name h: rules of layer i with that head are rejected. The array is lent, all 0.
#[tactic(auto, using(crate::proofs::MaskLaws::rejects_skip, crate::proofs::MaskLaws::rejects_more))]
fn reject(table: Table, m: &[bool], rejects: &mut [u32; MAX_NAMES])
    requires { rejects.old ≡ replicate max_names 0 }
    ensures { RejectedMasks table.entry.book.now table.entry.rows.now m.now rejects.new (row_count table.entry.rows.now) }
{
    for j in 0..table.len() {
        let row = table.row(j);
        let mask = row_mask(row, m);
        if mask != 0 {
            rejects[opposite(row.head())] |= mask;
        }
    }
}

// A row is violated: it is alive, its body holds and its head does not.
#[derive(Clone, Copy)]
struct RowViolated;

// Marks the plain heads of the rows whose bodies hold, rejected or not. A row that is violated ends it, as no stable model violates such
// a row, and nothing need be filled.
// Kept: the bound on a number of facts is a clause here and below, since a type for it would be turned into the number at each use.
fn supported(rules: &Rules, m: &[bool], atoms: &mut [bool]) -> Result<(), RowViolated>
    requires { length atoms.old ≤ max_atoms }
    ensures { Supports rules.now.table.book.now rules.now.table.rows.now rules.now.rejects.now m.now atoms.new (is_err result) (row_count rules.now.table.rows.now) }
{
    clear_marks(atoms);
    for j in 0..rules.table.len() {
        let row = rules.table.row(j);
        if row.holds(m) {
            let h = row.head();
            let lives = row.alive(rules.rejects);
            if lives && !literal_holds(m, literal_named(h)) {
                return Err(RowViolated);
            }
            if h < atoms.len() {
                atoms[h] = true;
            }
        }
    }
    Ok(())
}

// Marks the defaults: the atoms that are not supported.
// Kept: an atom is read by its number, since the check knows nothing of what is written through `iter_mut().zip(atoms)`.
#[tactic(auto, using(crate::proofs::MaskLaws::others_more, crate::proofs::MaskLaws::others_end))]
fn mark_defaults(atoms: &[bool], others: &mut [bool])
    requires { length others.old ≡ length atoms.now }
    ensures { Others atoms.now others.new (length atoms.now) }
{
    for (f, other) in others.iter_mut().enumerate() {
        *other = !atoms[f];
    }
}

// Whether the marks of an atom are what the interpretation says of it.
#[tactic(auto, unfolding(crate::specs::Agreement::marks_agree))]
fn mark_agrees(positive: &[bool], negative: &[bool], m: &[bool], f: usize) -> bool
    ensures { result ≡ marks_agree positive.now negative.now m.now f }
{
    let stands = atom_holds(m, f);
    atom_holds(positive, f) == stands && atom_holds(negative, f) != stands
}

// Whether the marks of each atom are what the interpretation says of it.
fn marks_agree(positive: &[bool], negative: &[bool], m: &[bool]) -> bool
    ensures { result ≡ all (marks_agree positive.now negative.now m.now) (up_to (length m.now)) }
{
    (0..m.len()).all(|f| mark_agrees(positive, negative, m, f))
}

// Whether an interpretation is a stable model of the program that the rows and masks tabulate, where it is known which rules are rejected
// in it. Two arrays are lent to fill. `hints` is what an earlier filling left.
pub fn settles(
    rules: &Rules,
    m: &[bool],
    positive: &mut [bool],
    negative: &mut [bool],
    hints: &mut Hints,
) -> bool
    requires well_formed { WellFormed (tabled rules.now.table.book.now rules.now.table.rows.now (length m.now)) }
    requires tabulates { Tabulates (tabled rules.now.table.book.now rules.now.table.rows.now (length m.now)) rules.now.table.book.now rules.now.table.rows.now }
    requires m_few { length m.now ≤ max_atoms }
    requires rejected_masks { RejectedMasks rules.now.table.book.now rules.now.table.rows.now m.now rules.now.rejects.now (row_count rules.now.table.rows.now) }
    requires marks_len { (length positive.old ≡ length m.now) × (length negative.old ≡ length m.now) }
    ensures { result ≡ stable (tabled rules.now.table.book.now rules.now.table.rows.now (length m.now)) m.now }
{
    if supported(rules, m, positive).is_err() {
        return false;
    }
    mark_defaults(positive, negative);
    if rules.fill(positive, negative, hints).is_err() {
        return false;
    }
    marks_agree(positive, negative, m)
}

// Whether an interpretation is a stable model of the program that the rows and masks tabulate. `hints` is what an earlier filling left.
// In a frame of its own, so that its arrays take the stack where those lay that the table was made with.
#[inline(never)]
pub fn is_stable(table: Table, m: &[bool], hints: &mut Hints) -> bool
    requires well_formed { WellFormed (tabled table.book.now table.rows.now (length m.now)) }
    requires tabulates { Tabulates (tabled table.book.now table.rows.now (length m.now)) table.book.now table.rows.now }
    requires m_few { length m.now ≤ max_atoms }
    ensures { result ≡ stable (tabled table.entry.book.now table.entry.rows.now (length m.now)) m.now }
{
    let n = m.len();
    // Kept: arrays with room for the most names and facts, cut to the length of the candidate, since there is no heap.
    let mut rejects: [u32; MAX_NAMES] = [0; MAX_NAMES];
    reject(table, m, &mut rejects);
    let mut positive = [false; MAX_ATOMS];
    let mut negative = [false; MAX_ATOMS];
    let rules = Rules {
        table,
        rejects: &rejects,
    };
    settles(&rules, m, &mut positive[..n], &mut negative[..n], hints)
}
