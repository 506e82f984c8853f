// What a call works out before it searches, and passes of the search: two that count, one that writes every record and two that write one
// of them: the closest to a wanted state, and the first. Document 01: "a listing may take one such pass to count and one to write"; where
// there is room for a record of every setting it takes one.
#![tactic(auto)]

ghost use Rattle.std.specs.Prelude.{◌≡◌, not, [], map, ◌++◌, ◌*◌, ◌≤◌, length, take, drop};
ghost use Rattle.std.specs.Option.{option_map};
ghost use Rattle.base.specs.Lists.{flat};
ghost use Rattle.models.specs.Listing.{stable_models, record_size, record_of};
ghost use Rattle.accepted.specs.Driving.{driven_program};
ghost use Rattle.search.specs.Space.{space_atoms, space_program};
ghost use Rattle.search.specs.Visits.{Asks, RoomFor};
ghost use Rattle.first.specs.InHand.{record_held};
ghost use Rattle.passes.specs.Limit.{has_no_stable_state};
ghost use Rattle.passes.specs.SetUp.{SetUp, SetUpIn};
ghost use Rattle.passes.specs.Nearest.{Nearest};
ghost use Rattle.passes.specs.Tallied.{Passed, Tallied, Bounds};

use accepted::Driving;
use bans::Bans;
use base::{ArrayVec, MAX_ATOMS, MAX_BRANCHING, MAX_RULES};
use book::Cause;
use branching::branching_atoms;
use first::{Held, Wish, search_first, sure_facts};
use plan::{Plan, make_plan};
use search::{Goal, Scratch, Space, Visit, search};
use table::{NO_ROW, NO_SPAN, Row, Span, Table};

// How many rows and constraints a call has written.
#[derive(Clone, Copy)]
pub struct Made {
    pub rows: usize,
    pub bans: usize,
}

// Writes the table and the constraints of a driven layer, and the plan of a search, and says how many rows and constraints there are,
// unless too many facts branch.
pub fn set_up(
    driving: &Driving,
    rows: &mut [Row; MAX_RULES],
    bans: &mut [Span; MAX_RULES],
    plan: &mut Plan,
) -> Result<Made, Cause>
    ensures { SetUpIn (driven_program driving.now) driving.now.book.now rows.new bans.new plan.new result }
{
    let n = driving.atom_count();
    let made = Made {
        rows: driving.prepare(rows),
        bans: driving.prepare_bans(bans),
    };
    let table = Table {
        book: driving.book,
        rows: &rows[..made.rows],
    };
    let bans = Bans {
        book: driving.book,
        spans: &bans[..made.bans],
    };
    let mut facts = ArrayVec::new(0);
    let g = branching_atoms(table, n, &mut facts);
    if MAX_BRANCHING < g {
        return Err(Cause::TooManyBranching);
    }
    make_plan(table, bans, n, facts, plan);
    Ok(made)
}

// What a call works in until it answers: the rows and the constraints that count at its layer, and the plan of its search.
#[derive(Drop)]
pub struct Work {
    rows: [Row; MAX_RULES],
    bans: [Span; MAX_RULES],
    plan: Plan,
}

impl Work {
    pub fn new() -> Work {
        Work {
            rows: [NO_ROW; MAX_RULES],
            bans: [NO_SPAN; MAX_RULES],
            plan: Plan::new(),
        }
    }

    // Makes in it the table and the constraints of a driven layer, and the plan of a search: what is searched, unless too many facts
    // branch.
    pub fn set_up<'a, 'b: 'a>(&'a mut self, driving: &Driving<'b>) -> Result<Space<'a>, Cause>
        ensures { SetUp (driven_program driving.now) driving.now.book.now result }
    {
        let Work { rows, bans, plan } = self;
        let made = set_up(driving, rows, bans, plan)?;
        let table = Table {
            book: driving.book,
            rows: &rows[..made.rows],
        };
        let bans = Bans {
            book: driving.book,
            spans: &bans[..made.bans],
        };
        Ok(Space { table, bans, plan })
    }
}

// One pass of the search: no fact is decided at first, and nothing is met. In a frame of its own, so that its arrays take the stack where
// those lay that the plan was made with.
#[inline(never)]
fn pass(space: &Space, goal: &Goal, part: &mut [u8]) -> Visit
    requires asks { Asks goal.now }
    requires room_for { RoomFor goal.now space.now.plan.now.n (length (stable_models (space_program space.now))) part.old }
    ensures { Passed (space_program space.now) (space_atoms space.now) space.now.plan.now.n goal.now part.old result part.new }
{
    let mut scratch = Scratch::new();
    let none = Visit {
        count: 0,
        weight: 0,
    };
    search(space, goal, space.start(), &mut scratch, part, none)
}

// No fewer than the stable models are, or more than there is room for: as many as there are settings, where there is room for that;
// else they are counted, no further than one past the room.
pub fn most_records(space: &Space, room: usize) -> usize
    ensures { Bounds (length (stable_models (space_program space.now))) room result }
{
    let settings: usize = 1 << space.plan.atoms.as_slice().len();
    if settings <= room {
        return settings;
    }
    pass(space, &Goal::Count(room), &mut []).count
}

// Counts the stable models, and what they weigh for the goal, until it is reached.
pub fn tally(space: &Space, goal: &Goal) -> Visit
    requires asks { Asks goal.now }
    requires room_for { RoomFor goal.now space.now.plan.now.n (length (stable_models (space_program space.now))) [] }
    ensures { Tallied (space_program space.now) goal.now result.count result.weight }
{
    pass(space, goal, &mut [])
}

// Writes the records of all stable models, rising, into the front of a part that has the room for them, and says how many there are.
// Where it has no room at all there are none, and nothing is searched.
pub fn write_all(space: &Space, part: &mut [u8]) -> usize
    requires n_in_bounds { length (stable_models (space_program space.now)) * record_size space.now.plan.now.n ≤ length part.old }
    ensures { (result ≡ length (stable_models (space_program space.now))) × (part.new ≡ flat (map (record_of space.now.plan.now.n) (stable_models (space_program space.now))) ++ drop (length (stable_models (space_program space.now)) * record_size space.now.plan.now.n) part.old) }
{
    if part.is_empty() {
        return 0;
    }
    pass(space, &Goal::List, part).count
}

// The pass for the closest record: no fact is decided at first, and nothing is in hand. An array of marks is lent for the facts that are
// sure.
fn nearest_pass(
    space: &Space,
    wanted: &[bool],
    scratch: &mut Scratch,
    sure: &mut [bool],
    part: &mut [u8],
) -> Option<Held>
    requires sure_len { (length sure.old ≡ space.now.plan.now.n) × (length wanted.now ≤ space.now.plan.now.n) }
    requires part_len { length part.old ≡ record_size space.now.plan.now.n }
    ensures { Nearest (space_program space.now) wanted.now space.now.plan.now.n part.old (option_map (λ held. held.distance) result) part.new }
{
    let n = space.plan.n;
    sure_facts(
        space.table,
        sure,
        &mut scratch.negative[0..n],
        &mut scratch.hints,
    );
    let wish = Wish { sure, wanted };
    search_first(space, &wish, space.start(), 0, scratch, part, None)
}

// Writes the record of the stable model that is closest to a wanted state, and of equals the first, into a part of a record's size. Says
// how far it is from what the wanted state has, if there is one.
#[tactic(auto, using(crate::proofs::SpaceLaws::plan_few))]
pub fn write_nearest(space: &Space, wanted: &[bool], part: &mut [u8]) -> Option<usize>
    requires wanted_len_bound { length wanted.now ≤ space.now.plan.now.n }
    requires part_len { length part.old ≡ record_size space.now.plan.now.n }
    ensures { Nearest (space_program space.now) wanted.now space.now.plan.now.n part.old result part.new }
{
    let mut scratch = Scratch::new();
    let mut sure = [false; MAX_ATOMS];
    let n = space.plan.n;
    let held = nearest_pass(space, wanted, &mut scratch, &mut sure[0..n], part)?;
    Some(held.distance)
}

// Writes the first record of all stable models into a part of a record's size, and says whether there is one: where nothing is wanted, all
// are equally close.
pub fn write_first(space: &Space, part: &mut [u8]) -> bool
    requires part_len { length part.old ≡ record_size space.now.plan.now.n }
    ensures { (result ≡ not (has_no_stable_state (space_program space.now))) × (part.new ≡ record_held space.now.plan.now.n (take 1 (stable_models (space_program space.now))) part.old) }
{
    write_nearest(space, &[], part).is_some()
}
