// What a search goes through, and the stable model of one setting of it.
ghost use Rattle.std.specs.Prelude.{◌≡◌};
ghost use Rattle.std.proofs.Props.{props};
ghost use Rattle.search.specs.Ready.{Ready};

use crate::{Scratch, Turn};
use bans::Bans;
use filling::Rules;
use leaf::{Leaf, Setting};
use plan::Plan;
use rejecting::{clear_at, reject_at};
use table::Table;

// What a search goes through: the table of a book's rules that count, the constraints, and the plan of both.
#[derive(Clone, Copy)]
pub struct Space<'a> {
    pub table: Table<'a>,
    pub bans: Bans<'a>,
    pub plan: &'a Plan,
    pub ghost same_book: { bans.book.now ≡ table.book.now } by { Prim.hlevel props },
    pub ghost ready: { ∥ Ready table.book.now table.rows.now bans.spans.now plan.now ∥₁ },
}

impl Space<'_> {
    ghost use Rattle.std.specs.Prelude.{[], ◌∷◌, length, MatchOption};
    ghost use Rattle.search.specs.Space.{space_atoms, models_at};

    // Nothing is decided: all branching facts are left.
    pub fn start(&self) -> Turn
        ensures { result ≡ record { left = length (space_atoms self.now); standing = 0; denied = 0 } }
    {
        Turn {
            left: self.plan.atoms.as_slice().len(),
            standing: 0,
            denied: 0,
        }
    }

    // The stable model at a setting, if there is one: that of the rules alone, unless the body of a constraint holds in it. A constraint's
    // facts need not branch, so it is tested on the finished state.
    pub fn find_model<'s>(&self, standing: u32, scratch: &'s mut Scratch) -> Option<&'s [bool]>
        ensures { MatchOption result (models_at self.now standing ≡ []) (λ m. (models_at self.now standing ≡ m.now ∷ []) × (length m.now ≡ self.now.plan.now.n)) }
    {
        let n = self.plan.n;
        let rejecting = self.plan.rejecting.as_slice();
        reject_at(rejecting, standing, &mut scratch.rejects);
        let rules = Rules {
            table: self.table,
            rejects: &scratch.rejects,
        };
        let setting = Setting {
            atoms: self.plan.atoms.as_slice(),
            standing,
        };
        let found = Leaf { rules, setting }.model_at(
            &mut scratch.positive[0..n],
            &mut scratch.negative[0..n],
            &mut scratch.early[0..n],
            &mut scratch.hints,
        );
        clear_at(rejecting, &mut scratch.rejects);
        let scratch = &*scratch;
        let state = &scratch.positive[..n];
        (found && !self.bans.banned(state)).then_some(state)
    }
}
