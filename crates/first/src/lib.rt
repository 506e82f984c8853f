// The search for the state that is closest to a wanted one, and of equals the first of the listing: a recursion through the settings of the
// branching facts with the best so far in hand. Where nothing is wanted, the wanted state has no facts: the first of the listing is found.
#![tactic(auto)]

ghost use Rattle.std.specs.Prelude.{◌≡◌, true, false, not, ◌&&◌, [], ◌∷◌, ◌<◌, ◌≤◌, T, ltb, length, get_or, Some, MatchOption};
ghost use Rattle.std.specs.Bool.{beq};
ghost use Rattle.base.specs.Bounds.{max_atoms, max_branching};
ghost use Rattle.models.specs.StableModels.{atom_holds};
ghost use Rattle.models.specs.Listing.{bit_value, record_size, record_of};
ghost use Rattle.insertion.specs.Runs.{bytes_before};
ghost use Rattle.filling.specs.Marks.{Room};
ghost use Rattle.search.specs.Space.{space_atoms, space_program, models_at, models_left};
ghost use Rattle.search.specs.Decided.{undecided, Turned};
ghost use Rattle.first.specs.InHand.{far, Sure, SureOf, StandingHas, Outlined, Takes, Apart, Later, Behind};

use filling::{Hints, Rules, clear_marks};
use nogoods::rejectable_masks;
use records::{put_state, record_byte};
use search::{Scratch, Space, Turn, promising};
use table::Table;

// What is kept of the state in hand, whose record stands in the lent part: its distance to the wanted state; of the branching facts, bit i
// for the i-th, those that stand in it, and those before which no other fact stands in it; and whether no other fact stands in it at all.
// Facts that are sure do not count as others.
// Kept: a flag beside the masks: as an Option it would name the first other fact, which nothing reads.
#[derive(Clone, Copy)]
pub struct Held {
    pub distance: usize,
    pub standing: u32,
    pub ahead: u32,
    pub alone: bool,
}

impl Held {
    // Whether no state in which these branching facts stand comes before the one in hand: at the first of the facts ahead where they
    // differ, the fact stands and does not stand in the one in hand. Where they do not differ, it depends on whether other facts stand in
    // that.
    fn comes_first(self, standing: u32) -> bool
        ensures { result ≡ true → Later self standing }
    {
        let differ = (standing ^ self.standing) & self.ahead;
        if differ == 0 {
            return self.alone;
        }
        let first = differ ^ (differ & (differ - 1));
        first & standing != 0
    }

    // Whether no state of a group comes before the one in hand, if these branching facts stand in each and each is so far apart from the
    // wanted state at least: all are farther away, or none is closer and it comes later.
    fn leaves_out(self, standing: u32, apart: usize) -> bool
        ensures { result ≡ true → Behind self standing apart }
    {
        self.distance < apart || self.distance == apart && self.comes_first(standing)
    }

    // Whether it comes before another state of this distance: it is closer, or it is as close and its record comes first.
    // Kept: `length part ≡ record_size n` in five contracts, up to `search_first`: a struct of part and n would be made at each call.
    #[tactic(auto, using(crate::proofs::PrecedesLaws::stays_as_far, crate::proofs::PrecedesLaws::stays_by_distance))]
    fn stays(self, distance: usize, part: &[u8], m: &[bool]) -> bool
        requires { (length m.now ≤ max_atoms) × (length part.now ≡ record_size (length m.now)) }
        ensures { result ≡ bytes_before (self.distance ∷ part.now) (distance ∷ record_of (length m.now) m.now) }
    {
        if self.distance == distance {
            precedes(part, m)
        } else {
            self.distance < distance
        }
    }
}

// What a search for the closest state goes by: facts that stand in every stable model, and the wanted state.
// Kept: `length wanted ≤ n` in four contracts: as a ghost field it would need n as a field, and that it is the space's in each contract.
#[derive(Clone, Copy)]
pub struct Wish<'a> {
    pub sure: &'a [bool],
    pub wanted: &'a [bool],
}

// A state that is met, over the facts of a space, with the bits of the branching facts that stand in it.
#[derive(Clone, Copy)]
struct Met<'a> {
    atoms: &'a [u32],
    state: &'a [bool],
    standing: u32,
    ghost atoms_few: { length atoms.now ≤ max_branching },
    ghost state_few: { length state.now ≤ max_atoms },
    ghost standing_has: { StandingHas atoms.now state.now standing },
}

// Facts that stand in every stable model: those that follow from nothing by rules that nothing can displace.
// The second array is lent for the negations, of which none is marked at first.
#[tactic(auto, using(crate::proofs::SureLaws::sure_of))]
pub fn sure_facts(table: Table, sure: &mut [bool], negative: &mut [bool], hints: &mut Hints)
    requires { Room table.rows.now sure.old negative.old }
    ensures { SureOf table.entry.book.now table.entry.rows.now sure.new }
{
    let rejectable = rejectable_masks(table.rows);
    let rules = Rules {
        table,
        rejects: &rejectable,
    };
    clear_marks(negative);
    let _ = rules.fill(sure, negative, hints);
}

// How many of the facts of the wanted state differ in a state.
fn distance(wanted: &[bool], m: &[bool]) -> usize
    requires { (length wanted.now ≤ length m.now) × (length m.now ≤ max_atoms) }
    ensures { result ≡ far wanted.now m.now }
{
    let mut d = 0;
    for (f, w) in wanted.iter().enumerate() {
        if *w != m[f] {
            d += 1;
        }
    }
    d
}

// 1 where a fact is decided otherwise than the wanted state has it, and 0 where it is not or the wanted state has no such fact.
fn step_apart(wanted: &[bool], f: usize, stands: bool) -> usize
    ensures { result ≡ bit_value (ltb f (length wanted.now) && not (beq (atom_holds wanted.now f) stands)) 1 }
{
    usize::from(f < wanted.len() && wanted[f] != stands)
}

// Whether the i-th branching fact is f.
fn branches_next(atoms: &[u32], i: usize, f: usize) -> bool
    ensures { result ≡ true → (i < length atoms.now) × (get_or atoms.now i 0 ≡ f) }
{
    i < atoms.len() && atoms[i] as usize == f
}

// Whether a fact stands and is not sure.
fn unsure(m: &[bool], sure: &[bool], f: usize) -> bool
    requires { (f < length m.now) × (f < length sure.now) }
    ensures { result ≡ false → T (atom_holds m.now f) → T (atom_holds sure.now f) }
{
    m[f] && !sure[f]
}

// What is kept of a state of this distance: it goes along the facts up to the first that stands and neither branches nor is sure.
fn outline(met: Met, sure: &[bool], distance: usize) -> Held
    requires { length sure.now ≡ length met.state.now }
    ensures { (result.distance ≡ distance) × Outlined met.entry.atoms.now sure.now met.entry.state.now result }
{
    let mut held = Held {
        distance,
        standing: met.standing,
        ahead: 0,
        alone: false,
    };
    // Kept: i is the next branching fact and moves on only past one that branches, so that no `for` counts it.
    let mut i: usize = 0;
    for f in 0..met.state.len() {
        if branches_next(met.atoms, i, f) {
            held.ahead |= 1 << i;
            i += 1;
        } else if unsure(met.state, sure, f) {
            return held;
        }
    }
    held.alone = true;
    held
}

// Whether a record comes before a state's.
// Kept: compared by hand: to compare slices, the second record, of which there are no bytes yet, would have to be made whole first.
fn precedes(part: &[u8], m: &[bool]) -> bool
    requires { (length m.now ≤ max_atoms) × (length part.now ≡ record_size (length m.now)) }
    ensures { result ≡ bytes_before part.now (record_of (length m.now) m.now) }
{
    for (j, mine) in part.iter().enumerate() {
        let byte = record_byte(m, 8 * j);
        if *mine != byte {
            return *mine < byte;
        }
    }
    false
}

impl Wish<'_> {
    // A stable model is met: its record is taken in hand, unless the one in hand comes before it.
    fn take(&self, met: Met, part: &mut [u8], held: Option<Held>) -> Held
        requires lengths { (length self.now.sure.now ≡ length met.state.now) × (length self.now.wanted.now ≤ length met.state.now) }
        requires part_len { length part.old ≡ record_size (length met.state.now) }
        ensures { Takes met.entry.atoms.now self.now.sure.now self.now.wanted.now (length met.entry.state.now) (met.entry.state.now ∷ []) held part.old (Some result) part.new }
    {
        let d = distance(self.wanted, met.state);
        if let Some(kept) = held
            && kept.stays(d, part, met.state)
        {
            return kept;
        }
        put_state(met.state, part, 0);
        outline(met, self.sure, d)
    }
}

// Meets the stable model of one setting, if there is one. It is a function of its own so that the recursion's frames stay small.
// Kept: six parameters, as in `search_first`, which calls it.
fn visit_first(
    space: &Space,
    wish: &Wish,
    standing: u32,
    scratch: &mut Scratch,
    part: &mut [u8],
    held: Option<Held>,
) -> Option<Held>
    requires sure_len { (length wish.now.sure.now ≡ space.now.plan.now.n) × (length wish.now.wanted.now ≤ space.now.plan.now.n) }
    requires part_len { length part.old ≡ record_size space.now.plan.now.n }
    ensures { Takes (space_atoms space.now) wish.now.sure.now wish.now.wanted.now space.now.plan.now.n (models_at space.now standing) held part.old result part.new }
{
    match space.find_model(standing, scratch) {
        Some(state) => {
            let met = Met {
                atoms: space.plan.atoms.as_slice(),
                state,
                standing,
            };
            Some(wish.take(met, part, held))
        }
        None => held,
    }
}

// Whether a state is in hand before which no state of a group comes.
fn left_out(held: Option<Held>, standing: u32, apart: usize) -> bool
    ensures { MatchOption held (result ≡ false) (λ kept. result ≡ true → Behind kept standing apart) }
{
    held.is_some_and(|kept| kept.leaves_out(standing, apart))
}

// Goes through the settings of the branching facts that are left, as `search` does, and takes the first state of all in hand. `apart` of
// the facts decided so far differ in the wanted state. A group of settings in which no state comes before the one in hand is left out.
// Kept: beside `search`: one recursion over a trait of both needs two types, four methods and six laws, for two bodies of a dozen lines.
// Kept: seven parameters: turn, distance and state in hand are others at each call: no one value has what a call needs.
pub fn search_first(
    space: &Space,
    wish: &Wish,
    turn: Turn,
    apart: usize,
    scratch: &mut Scratch,
    part: &mut [u8],
    held: Option<Held>,
) -> Option<Held>
    requires turned { Turned (space_atoms space.now) turn }
    requires sure { Sure (space_program space.now) wish.now.sure.now }
    requires wanted_len_bound { length wish.now.wanted.now ≤ space.now.plan.now.n }
    requires apart { Apart wish.now.wanted.now (undecided (space_atoms space.now) turn.left) (models_left space.now turn) turn.left apart }
    requires part_len { length part.old ≡ record_size space.now.plan.now.n }
    ensures { Takes (space_atoms space.now) wish.now.sure.now wish.now.wanted.now space.now.plan.now.n (models_left space.now turn) held part.old result part.new }
{
    if left_out(held, turn.standing, apart) || !promising(space.plan, turn) {
        return held;
    }
    if turn.left == 0 {
        return visit_first(space, wish, turn.standing, scratch, part, held);
    }
    let atoms = space.plan.atoms.as_slice();
    let i = atoms.len() - turn.left;
    let f = atoms[i] as usize;
    let denied = apart + step_apart(wish.wanted, f, false);
    let half = search_first(
        space,
        wish,
        turn.decided(i, false),
        denied,
        scratch,
        part,
        held,
    );
    let stands = apart + step_apart(wish.wanted, f, true);
    search_first(
        space,
        wish,
        turn.decided(i, true),
        stands,
        scratch,
        part,
        half,
    )
}
