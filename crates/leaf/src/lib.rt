// The stable model of one setting of the branching facts, if there is one: what follows from the facts that the setting denies is the
// only state that can be stable there.
#![tactic(auto)]

ghost use Rattle.std.specs.Prelude.{◌≡◌, true, false, [], ℕ, Bool, ◌<◌, eqb, length};
ghost use Rattle.base.specs.Bounds.{max_atoms, max_branching};
ghost use Rattle.base.specs.Lists.{cons_if};
ghost use Rattle.layers.specs.Masks.{bit_of};
ghost use Rattle.table.specs.Names.{literal_named};
ghost use Rattle.table.specs.Rows.{row_count};
ghost use Rattle.setting.specs.Setting.{setting_of};
ghost use Rattle.leaf.specs.Found.{agree_on};
ghost use Rattle.leaf.specs.Searchable.{Searchable, Below, Choices, denied_of, Undisputed, Covered, Computes, denies_any, reaches_denied, Joined, Begun, Early, OnlyState};
ghost use Rattle.leaf.specs.Contested.{Answered, Uncontested};

use base::{MAX_ATOMS, MAX_NAMES};
use filling::{Hints, Rules, clear_marks};
use table::atom_holds;
use tester::settles;

// A setting of the branching facts: of these the i-th stands where bit i of the mask is set.
#[derive(Clone, Copy)]
pub struct Setting<'a> {
    pub atoms: &'a [u32],
    pub standing: u32,
    pub ghost choices: { Choices atoms.now max_atoms },
}

impl Setting<'_> {
    // Whether the i-th branching fact stands.
    fn stands(self, i: usize) -> bool
        requires { i < max_branching }
        ensures { result ≡ eqb (bit_of self.entry.standing i) 1 }
    {
        (self.standing >> i) & 1 == 1
    }

    // Whether a test says yes of a fact that the setting denies.
    // Kept: a loop: `stands` asks that i is a bit of the mask, which a chain over `enumerate` would need a lemma on its places for.
    fn denies_any<F: Fn(usize) -> bool>(self, test: F) -> bool
        requires { F.IsAlwaysCallable test }
        ensures { (p : ℕ → Bool) → Computes (F.post test) p → result ≡ denies_any self.entry.atoms.now (denied_of self.entry.atoms.now self.entry.standing) p }
    {
        for (i, f) in self.atoms.iter().enumerate() {
            if !self.stands(i) && test(*f as usize) {
                return true;
            }
        }
        false
    }

    // Marks, of the facts that the setting denies, those of which no rule is rejected: they are defaults in whatever the filling leads to.
    fn assume(self, rejects: &[u32; MAX_NAMES], negative: &mut [bool])
        requires { Below self.atoms.now (length negative.old) }
        ensures { Undisputed rejects.now (denied_of self.entry.atoms.now self.entry.standing) negative.new }
    {
        clear_marks(negative);
        for (i, f) in self.atoms.iter().enumerate() {
            let f = *f as usize;
            if rejects[f] == 0 {
                negative[f] = !self.stands(i);
            }
        }
    }

    // Whether all facts that the setting denies are marked.
    fn covers(self, negative: &[bool]) -> bool
        ensures { result ≡ true → Covered self.entry.atoms.now (denied_of self.entry.atoms.now self.entry.standing) negative.now (length self.entry.atoms.now) }
    {
        !self.denies_any(|f| !atom_holds(negative, f))
    }

    // Whether a fact that the setting denies is reached.
    fn reaches_denied(self, positive: &[bool]) -> bool
        ensures { result ≡ reaches_denied self.entry.atoms.now (denied_of self.entry.atoms.now self.entry.standing) positive.now }
    {
        self.denies_any(|f| atom_holds(positive, f))
    }

    // Marks the facts that the setting denies besides the reached negations.
    fn join(self, negative: &mut [bool])
        requires { Below self.atoms.now (length negative.old) }
        ensures { Joined self.entry.atoms.now (denied_of self.entry.atoms.now self.entry.standing) negative.old negative.new (length self.entry.atoms.now) }
    {
        for (i, f) in self.atoms.iter().enumerate() {
            if !self.stands(i) {
                negative[*f as usize] = true;
            }
        }
    }

    // Whether a state gives the branching facts as the setting does.
    // Kept: a loop, as in `denies_any`: `stands` is asked for each place.
    fn agrees(self, state: &[bool]) -> bool
        ensures { result ≡ agree_on self.entry.atoms.now state.now (setting_of self.entry.atoms.now self.entry.standing) }
    {
        for (i, f) in self.atoms.iter().enumerate() {
            if atom_holds(state, *f as usize) != self.stands(i) {
                return false;
            }
        }
        true
    }
}

// Whether a name is an atom that does not hold and whose negation is not marked.
fn undecided(m: &[bool], negative: &[bool], h: usize) -> bool
    ensures { result ≡ false → Answered m.now negative.now (literal_named h) }
{
    h < MAX_ATOMS && !atom_holds(m, h) && !atom_holds(negative, h)
}

// Whether a rejected row's body holds, but not its plain head, whose negation is not marked either. Where none is so, marks that were
// filled from a setting need no second filling from the defaults.
// Kept: a loop: `undecided` says what its no means, not its yes, so that a chain's laws, which name the test, have none to name.
pub fn contested(rules: &Rules, m: &[bool], negative: &[bool]) -> bool
    ensures { result ≡ false → Uncontested rules.now.table.book.now rules.now.table.rows.now rules.now.rejects.now m.now negative.now (row_count rules.now.table.rows.now) }
{
    let table = rules.table;
    for j in 0..table.len() {
        let row = table.row(j);
        if !row.alive(rules.rejects) && undecided(m, negative, row.head()) && row.holds(m) {
            return true;
        }
    }
    false
}

// Keeps marks as they are now.
// Kept: a loop: std's `copy_from_slice` would ask memmove of a host, which lends memcpy and memset.
fn copy_marks(marks: &[bool], kept: &mut [bool])
    requires { length kept.old ≡ length marks.now }
    ensures { kept.new ≡ marks.now }
{
    for f in 0..kept.len() {
        kept[f] = marks[f];
    }
}

// What the stable model of a setting is worked out from: the rules of the table with the masks of those that the setting rejects, and the
// setting.
#[derive(Clone, Copy)]
pub struct Leaf<'a, 'b> {
    pub rules: Rules<'a>,
    pub setting: Setting<'b>,
}

impl Leaf<'_, '_> {
    ghost use Rattle.leaf.specs.Leaf.{LeafReady, leaf_models};

    // Whether the only state that can be stable at the setting is. It has to agree with the setting, or it would be found under two
    // settings. Then it needs no further test where no rejected rule is contested. The marks that were reached early are read before they
    // are written.
    fn decide(
        &self,
        state: &[bool],
        early: &mut [bool],
        other: &mut [bool],
        hints: &mut Hints,
    ) -> bool
        requires searchable { Searchable self.now.rules.table.book.now self.now.rules.table.rows.now self.now.setting.atoms.now (length state.now) }
        requires only_state { OnlyState self.now.rules.table.book.now self.now.rules.table.rows.now self.now.rules.rejects.now self.now.setting.atoms.now (setting_of self.now.setting.atoms.now self.now.setting.standing) state.now early.old }
        requires marks_len { (length early.old ≡ length state.now) × (length other.old ≡ length state.now) }
        ensures { leaf_models self.now (length state.now) ≡ cons_if result state.now [] }
    {
        if !self.setting.agrees(state) {
            return false;
        }
        let clear = !contested(&self.rules, state, early);
        clear || settles(&self.rules, state, early, other, hints)
    }

    // The stable model of the setting, if there is one, from all that the setting denies. What was reached early follows from all of it
    // too, so the filling goes on from there, unless a denied fact is among it and so reached both ways. Where it meets no conflict, the
    // facts that are reached are the only state that can be stable.
    fn model_from(
        &self,
        positive: &mut [bool],
        negative: &mut [bool],
        early: &mut [bool],
        hints: &mut Hints,
    ) -> bool
        requires ready { LeafReady self.now (length positive.old) }
        requires begun { Begun self.now.rules.table.book.now self.now.rules.table.rows.now self.now.rules.rejects.now (denied_of self.now.setting.atoms.now self.now.setting.standing) positive.old negative.old }
        requires early { Early self.now.rules.table.book.now self.now.rules.table.rows.now self.now.rules.rejects.now (denied_of self.now.setting.atoms.now self.now.setting.standing) negative.old }
        requires marks_len { (length negative.old ≡ length positive.old) × (length early.old ≡ length positive.old) }
        ensures { leaf_models self.now (length positive.old) ≡ cons_if result positive.new [] }
    {
        if self.setting.reaches_denied(positive) {
            return false;
        }
        copy_marks(negative, early);
        self.setting.join(negative);
        if self.rules.fill_on(positive, negative, hints).is_err() {
            return false;
        }
        self.decide(positive, early, negative, hints)
    }

    // Whether there is a stable model at the setting, which then stands in the first of the three lent arrays. Filling starts from the
    // undisputed part of what the setting denies: the negations that are reached early, before anything disputed is assumed. Where they
    // come to be all that the setting denies, it need not go on.
    // Kept: a flag beside a lent array: lent back as an Option, it outlasts the clearing of the masks, which the check does not cover.
    // Kept: arrays lent one by one: `decide` is lent two of them in either order, and a struct of them would hide which is which.
    pub fn model_at(
        &self,
        positive: &mut [bool],
        negative: &mut [bool],
        early: &mut [bool],
        hints: &mut Hints,
    ) -> bool
        requires ready { LeafReady self.now (length positive.old) }
        requires marks_len { (length negative.old ≡ length positive.old) × (length early.old ≡ length positive.old) }
        ensures { leaf_models self.now (length positive.old) ≡ cons_if result positive.new [] }
    {
        self.setting.assume(self.rules.rejects, negative);
        if self.rules.fill(positive, negative, hints).is_err() {
            return false;
        }
        if self.setting.covers(negative) {
            return self.decide(positive, negative, early, hints);
        }
        self.model_from(positive, negative, early, hints)
    }
}
