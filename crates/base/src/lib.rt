// The bounds of document 01 as the code uses them; specs/Bounds.antt has the same names.
#![tactic(auto)]

pub const MAX_ATOMS: usize = 1024;

pub const MAX_NAMES: usize = 2 * MAX_ATOMS;

pub const MAX_RECORD: usize = (MAX_ATOMS + 7) / 8;

pub const MAX_LAYERS: usize = 32;

pub const MAX_ARROWS: usize = 496;

pub const MAX_RULES: usize = 1024;

pub const MAX_BODY: usize = 16;

pub const MAX_BRANCHING: usize = 20;

mod array_vec;

pub use array_vec::ArrayVec;
