// The search through the settings of the branching facts: one recursion, whatever is asked of the models that it meets (`Goal`).
#![tactic(auto)]

ghost use Rattle.std.specs.Prelude.{◌≡◌, ◌⊎◌, false, [], ◌∷◌, ◌+◌, ◌^◌, ◌<◌, ◌≤◌, length};
ghost use Rattle.base.specs.Bounds.{max_atoms, max_branching};
ghost use Rattle.setting.specs.RuleMasks.{Headed};
ghost use Rattle.nogoods.specs.Nogoods.{Violated};
ghost use Rattle.search.specs.Space.{space_atoms, models_at, models_left};
ghost use Rattle.search.specs.Decided.{decided_turn, Turned};
ghost use Rattle.search.specs.Visits.{Asks, weight_of, kept_by, RoomFor, stopped, Kept, visited, Searched, Combines};

mod scratch;
mod space;

use condition::{Code, evaluate};
use merging::merge;
use nogoods::has_nogood;
use plan::Plan;
use records::{add_state, put_state, record_size};
pub use scratch::Scratch;
use setting::headed;
pub use space::Space;
use table::atom_holds;

// What the search is for: every record, how many models there are, whether a fact stands in some but not in all, in how many models each
// fact stands, or in how many the condition of these codes holds.
// Kept: an enum with methods, and no closures or trait: the set is closed, and the specs speak of each goal by name.
#[derive(Clone, Copy)]
pub enum Goal<'a> {
    List,
    // no further than one more than this
    Count(usize),
    Settle(usize),
    Sums,
    Fit(&'a [Code]),
}

// What the search keeps: the models met and what they weigh together.
#[derive(Clone, Copy)]
pub struct Visit {
    pub count: usize,
    pub weight: usize,
}

impl Goal<'_> {
    // Whether the goal is reached, so that no further model is wanted.
    pub fn stops(&self, v: Visit) -> bool
        ensures { result ≡ stopped self.now v }
    {
        match self {
            Goal::List => false,
            Goal::Count(most) => *most < v.count,
            Goal::Settle(_) => 0 < v.weight && v.weight < v.count,
            _ => false,
        }
    }

    // What a model weighs.
    fn weight(&self, m: &[bool]) -> usize
        requires { Asks self.now }
        ensures { (result ≡ weight_of self.now m.now) × (result ≤ 1) }
    {
        match self {
            Goal::Settle(fact) => usize::from(atom_holds(m, *fact)),
            Goal::Fit(codes) => usize::from(evaluate(codes, m)),
            _ => 0,
        }
    }

    // Writes what the goal keeps of one more model: a listing's record goes behind those that are there.
    #[tactic(auto, using(crate::proofs::KeptLaws::sums_fit, crate::proofs::KeptLaws::keep_listed, crate::proofs::KeptLaws::keep_sums, crate::proofs::KeptLaws::keep_others))]
    fn keep(&self, state: &[bool], count: usize, part: &mut [u8])
        requires { (length state.now ≤ max_atoms) × (count < 4294967296) × RoomFor self.now (length state.now) (count + 1) part.old }
        ensures { part.new ≡ kept_by self.now (length state.now) count (state.now ∷ []) part.old }
    {
        match self {
            Goal::List => put_state(state, part, count * record_size(state.len())),
            Goal::Sums => add_state(state, part),
            _ => {}
        }
    }

    // A stable model is met: it is counted, weighed and kept.
    pub fn meet(&self, state: &[bool], part: &mut [u8], v: Visit) -> Visit
        requires { (length state.now ≤ max_atoms) × Kept self.now (length state.now) 1 v part.old × (v.count < 4294967296) }
        ensures { (result ≡ visited self.now (state.now ∷ []) v) × (part.new ≡ kept_by self.now (length state.now) v.count (state.now ∷ []) part.old) }
    {
        self.keep(state, v.count, part);
        Visit {
            count: v.count + 1,
            weight: v.weight + self.weight(state),
        }
    }

    // Makes of two runs of models, met one after the other, one: a listing's records of the second run, which rise, are inserted among
    // those of the first.
    // Kept: three counts beside each other, in one clause: they are of three visits, which no one value has, and are bounded together.
    fn combine(&self, n: usize, from: usize, mid: usize, end: usize, part: &mut [u8])
        requires n_nonzero { (0 < n) × (n ≤ max_atoms) × (from ≤ mid) × (mid ≤ end) × (end ≤ 4294967296) }
        requires room_for { RoomFor self.now n end part.old }
        ensures { Combines self.now n from mid end part.old part.new }
    {
        if let Goal::List = self {
            let w = record_size(n);
            merge(&mut part[from * w..end * w], mid - from, end - mid, w);
        }
    }
}

// How far the search is: how many branching facts are left to decide, and of the others the bits of those that stand and of those that
// do not.
#[derive(Clone, Copy)]
pub struct Turn {
    pub left: usize,
    pub standing: u32,
    pub denied: u32,
}

impl Turn {
    // One fact fewer is left: the i-th is decided to stand, or not to.
    pub fn decided(self, i: usize, stands: bool) -> Turn
        requires { (0 < self.left) × (i < max_branching) }
        ensures { result ≡ decided_turn self i stands }
    {
        let bit = 1 << i;
        let mut next = Turn {
            left: self.left - 1,
            ..self
        };
        if stands {
            next.standing |= bit;
        } else {
            next.denied |= bit;
        }
        next
    }
}

// Whether the quick tests leave it open that a setting of the facts that are left has a stable model: each fact that stands is the head of
// a rule that may yet be reached, and no nogood is decided.
pub fn promising(plan: &Plan, turn: Turn) -> bool
    ensures { result ≡ false → (Headed plan.now.heads turn.standing turn.denied → ⊥) ⊎ Violated plan.now.nogoods turn.standing turn.denied }
{
    headed(plan.heads.as_slice(), turn.standing, turn.denied)
        && !has_nogood(plan.nogoods.as_slice(), turn.standing, turn.denied)
}

// Visits the stable model of one setting, if there is one. It is a function of its own so that the recursion's frames stay small.
// Kept: six parameters, as in `search`, which calls it.
pub fn visit_setting(
    space: &Space,
    goal: &Goal,
    standing: u32,
    scratch: &mut Scratch,
    part: &mut [u8],
    v: Visit,
) -> Visit
    requires kept { Kept goal.now space.now.plan.now.n (length (models_at space.now standing)) v part.old }
    requires count_bound { (v.count < 4294967296) × (stopped goal.now v ≡ false) }
    ensures { Searched goal.now space.now.plan.now.n (models_at space.now standing) v part.old result part.new }
{
    match space.find_model(standing, scratch) {
        Some(state) => goal.meet(state, part, v),
        None => v,
    }
}

// Goes through the settings of the branching facts that are left, each at most once, and visits the stable model of each setting, if
// there is one. Where the quick tests say that no setting of the facts that are left has a stable model, none is gone through.
// Kept: six parameters: turn and visit are others at each call, and the lent arrays are lent anew: no one value has what a call needs.
pub fn search(
    space: &Space,
    goal: &Goal,
    turn: Turn,
    scratch: &mut Scratch,
    part: &mut [u8],
    v: Visit,
) -> Visit
    requires turned { Turned (space_atoms space.now) turn }
    requires kept { Kept goal.now space.now.plan.now.n (length (models_left space.now turn)) v part.old }
    requires left_bound { v.count + 2 ^ turn.left ≤ 4294967296 }
    ensures { Searched goal.now space.now.plan.now.n (models_left space.now turn) v part.old result part.new }
{
    if goal.stops(v) || !promising(space.plan, turn) {
        return v;
    }
    if turn.left == 0 {
        return visit_setting(space, goal, turn.standing, scratch, part, v);
    }
    let i = space.plan.atoms.as_slice().len() - turn.left;
    let half = search(space, goal, turn.decided(i, false), scratch, part, v);
    let both = search(space, goal, turn.decided(i, true), scratch, part, half);
    goal.combine(space.plan.n, v.count, half.count, both.count, part);
    both
}
