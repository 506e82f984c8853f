// What a search reads besides the table, made once a call: the branching facts, and the masks of the rules' heads and bodies, of the
// nogoods and of the rows that reject. One pass over the rows, which reads each body once.
#![tactic(auto)]

ghost use Rattle.std.specs.Prelude.{◌≡◌, ◌≤◌, length};
ghost use Rattle.base.specs.Bounds.{max_rules};
ghost use Rattle.table.specs.Rows.{row_count};
ghost use Rattle.setting.specs.RuleMasks.{Low, AtomBits};
ghost use Rattle.nogoods.specs.Nogoods.{max_nogoods};
ghost use Rattle.plan.specs.Plan.{IsEmptyPlan, PlanTo, PlanStep, NogoodsPut, Planned};

use bans::Bans;
use base::{ArrayVec, MAX_BRANCHING, MAX_NAMES, MAX_RULES};
use nogoods::{MAX_NOGOODS, Nogood, ban_nogood, rejectable_masks, row_nogood};
use rejecting::{RejectingMasks, rejecting_masks};
use setting::{HeadMasks, atom_bits, branching_bit, head_masks, row_masks};
use table::{Table, TableRow, opposite};

// It is large, and made in place: it is handed on by reference alone.
#[derive(Drop)]
pub struct Plan {
    // how many facts there are
    pub n: usize,
    // those that branch, rising
    pub atoms: ArrayVec<u32, MAX_BRANCHING>,
    // the masks of the rules with such a head
    pub heads: ArrayVec<HeadMasks, MAX_RULES>,
    // what no stable model has together
    pub nogoods: ArrayVec<Nogood, MAX_NOGOODS>,
    // the masks of the rows that can reject rules
    pub rejecting: ArrayVec<RejectingMasks, MAX_RULES>,
}

impl Plan {
    // A plan with no entry.
    pub fn new() -> Plan
        ensures { IsEmptyPlan result }
    {
        Plan {
            n: 0,
            atoms: ArrayVec::new(0),
            heads: ArrayVec::new(HeadMasks {
                plain: 0,
                negated: 0,
                head: 0,
            }),
            nogoods: ArrayVec::new(Nogood {
                standing: 0,
                denied: 0,
            }),
            rejecting: ArrayVec::new(RejectingMasks {
                plain: 0,
                negated: 0,
                layers: 0,
                name: 0,
            }),
        }
    }
}

// Writes a row's entries behind the others.
fn plan_row(row: TableRow, bits: &[u32], rejectable: &[u32; MAX_NAMES], plan: &mut Plan)
    requires rows_bound { row_count row.table.rows.now ≤ max_rules }
    requires atom_bits { AtomBits plan.old.atoms bits.now (length plan.old.atoms) }
    requires plan_to { PlanTo row.table.book.now row.table.rows.now bits.now rejectable.now plan.old row.j }
    ensures { PlanStep row.entry.table.book.now row.entry.table.rows.now bits.now rejectable.now plan.old row.entry.j plan.new }
{
    let body = row_masks(row, bits);
    let h = row.head();
    // A name past the facts, that of a negated head, has no bit: no such rule shows that a fact stands.
    plan.heads.put(head_masks(body, branching_bit(bits, h)));
    plan.nogoods.put(row_nogood(row, rejectable, bits, body));
    plan.rejecting
        .put(rejecting_masks(body, opposite(h), row.overridden()));
}

// Writes the nogoods of constraints behind the others.
fn put_bans(bans: Bans, bits: &[u32], nogoods: &mut ArrayVec<Nogood, MAX_NOGOODS>)
    requires { length nogoods.old ≤ max_nogoods }
    ensures put { NogoodsPut bans.entry.book.now bans.entry.spans.now bits.now nogoods.old nogoods.new }
    ensures few { length nogoods.new ≤ max_nogoods }
{
    for ban in bans.spans {
        nogoods.put(ban_nogood(bans.book, *ban, bits));
    }
}

// Makes the plan of a table and of constraints of the same book, of n facts of which these branch. In a frame of its own, so that its
// arrays take the stack where those lay that the table was made with, and leave it to the search's.
#[inline(never)]
pub fn make_plan(
    table: Table,
    bans: Bans,
    n: usize,
    facts: ArrayVec<u32, MAX_BRANCHING>,
    plan: &mut Plan,
)
    requires rows_bound { row_count table.rows.now ≤ max_rules }
    requires same_book { bans.book.now ≡ table.book.now }
    requires facts_low { Low facts }
    ensures planned { Planned table.entry.book.now table.entry.rows.now bans.entry.spans.now facts plan.new }
    ensures facts { plan.new.n ≡ n }
{
    plan.n = n;
    plan.heads.clear();
    plan.nogoods.clear();
    plan.rejecting.clear();
    let bits = atom_bits(facts.as_slice());
    plan.atoms = facts;
    let rejectable = rejectable_masks(table.rows);
    for j in 0..table.len() {
        plan_row(table.row(j), &bits, &rejectable, plan);
    }
    put_bans(bans, &bits, &mut plan.nogoods);
}
