// The arrays that a search works in.
ghost use Rattle.std.specs.Prelude.{◌≡◌, replicate};
ghost use Rattle.base.specs.Bounds.{max_names};

use base::{MAX_ATOMS, MAX_NAMES};
use filling::Hints;

// What a search works in at every setting, made once a pass: the masks of the rules that a setting rejects, of which there are none between
// settings; three arrays of marks; and what one filling leaves for the next.
// Kept: no heap and fixed memory, so each array has room for the most facts, and the plan says how many there are.
#[derive(Drop)]
pub struct Scratch {
    pub rejects: [u32; MAX_NAMES],
    pub positive: [bool; MAX_ATOMS],
    pub negative: [bool; MAX_ATOMS],
    pub early: [bool; MAX_ATOMS],
    pub hints: Hints,
    ghost blank: { rejects ≡ replicate max_names 0 },
}

impl Scratch {
    pub fn new() -> Scratch {
        Scratch {
            rejects: [0; MAX_NAMES],
            positive: [false; MAX_ATOMS],
            negative: [false; MAX_ATOMS],
            early: [false; MAX_ATOMS],
            hints: Hints::new(),
        }
    }
}
