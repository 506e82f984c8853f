// A candidate's bytes: whether they have the form of one record (cause 10), and the state that they give.
#![tactic(auto)]

ghost use Rattle.std.specs.Prelude.{◌≡◌, ◌≤◌, ◌/◌, List, ℕ, get_or, length, take};
ghost use Rattle.base.specs.Bounds.{max_atoms};
ghost use Rattle.models.specs.Listing.{record_size, bit_at, interpretation_of};
ghost use Rattle.candidate.specs.Candidate.{is_bad_candidate};

use base::MAX_ATOMS;
use records::record_size;

// The bit of fact f in its byte.
#[tactic(auto, unfolding(models::specs::Listing::bit_at))]
fn bit_in(byte: u8, f: usize) -> bool
    ensures { (s : List ℕ) → byte ≡ get_or s (f / 8) 0 → result ≡ bit_at s f }
{
    (byte >> (7 - f % 8)) & 1 == 1
}

// The bit of fact f; 0 where the bytes have none.
pub fn bit_at(s: &[u8], f: usize) -> bool
    ensures { result ≡ bit_at s.now f }
{
    bit_in(s.get(f / 8).copied().unwrap_or(0), f)
}

// Cause 10: a candidate of another length, or a spare bit set.
#[tactic(auto, unfolding(crate::specs::Candidate::is_bad_candidate))]
pub fn bad_candidate(candidate: &[u8], n: usize) -> bool
    requires { n ≤ max_atoms }
    ensures { result ≡ is_bad_candidate n candidate.now }
{
    let w = record_size(n);
    candidate.len() != w || (n..8 * w).any(|f| bit_at(candidate, f))
}

// The state of n facts that a candidate gives, in the first places.
// Kept: apart from the test: the drive asks cause 10 before it makes the table, and reads the state after: an Option is no plainer.
#[tactic(auto, using(crate::proofs::ReadLaws::read_start, crate::proofs::ReadLaws::read_more))]
pub fn read_candidate(candidate: &[u8], n: usize) -> [bool; MAX_ATOMS]
    requires n_le_max_atoms { n ≤ max_atoms }
    requires candidate_len { length candidate.now ≡ record_size n }
    ensures { take n result ≡ interpretation_of n candidate.now }
{
    let mut m = [false; MAX_ATOMS];
    for (f, holds) in m[..n].iter_mut().enumerate() {
        *holds = bit_in(candidate[f / 8], f);
    }
    m
}
