// The call that tests a candidate: the first of causes 1 to 10 and 19 that applies, or whether the candidate's state is stable at the
// driven layer. It writes nothing.
#![tactic(auto)]

ghost use Rattle.std.specs.Prelude.{◌≡◌, false};
ghost use Rattle.format.specs.Book.{book_of};
ghost use Rattle.base.specs.Lists.{all, any};
ghost use Rattle.models.specs.StableModels.{holds, stable};
ghost use Rattle.models.specs.Listing.{interpretation_of};
ghost use Rattle.accepted.specs.Driving.{driven_program};
ghost use Rattle.candidate.specs.Candidate.{is_bad_candidate};
ghost use Rattle.test_call.specs.Reply.{test_reply};

use accepted::{Driving, check_layer};
use base::MAX_RULES;
use book::Cause;
use candidate::{bad_candidate, read_candidate};
use filling::Hints;
use table::{NO_ROW, NO_SPAN};
use tester::is_stable;

// Whether the body of a constraint that counts at the layer holds in a state. In a frame of its own, so that its array takes the stack where
// the table's lies afterwards.
#[inline(never)]
fn forbids(driving: &Driving, m: &[bool]) -> bool
    ensures { result ≡ any (all (holds m.now)) (driven_program driving.now).constraints }
{
    let mut bans = [NO_SPAN; MAX_RULES];
    driving.bans(&mut bans).banned(m)
}

// Whether a candidate's state is stable, once no cause applies: no constraint forbids it, and the rules settle it. Their table is made
// once, then the test fills from it.
#[tactic(auto, using(candidate::proofs::CandidateLaws::ok_length, crate::proofs::ReplyLaws::forbidden_over, crate::proofs::ReplyLaws::state_is, crate::proofs::ReplyLaws::lent_formed, crate::proofs::ReplyLaws::lent_table, crate::proofs::ReplyLaws::stable_over))]
fn candidate_stable(driving: &Driving, candidate: &[u8]) -> bool
    requires { is_bad_candidate (book_of driving.now.book.now).atoms candidate.now ≡ false }
    ensures { result ≡ stable (driven_program driving.now) (interpretation_of (book_of driving.now.book.now).atoms candidate.now) }
{
    let n = driving.atom_count();
    let m = read_candidate(candidate, n);
    let state = &m[..n];
    if forbids(driving, state) {
        return false;
    }
    let mut rows = [NO_ROW; MAX_RULES];
    is_stable(driving.table(&mut rows), state, &mut Hints::new())
}

// Whether a candidate is stable.
#[tactic(auto, using(crate::proofs::ReplyLaws::layer_refused, crate::proofs::ReplyLaws::candidate_refused, crate::proofs::ReplyLaws::not_bad, crate::proofs::ReplyLaws::answered))]
pub fn test(book: &[u8], layer: u32, off: u32, candidate: &[u8]) -> Result<bool, Cause>
    ensures { result ≡ test_reply book.now layer off candidate.now }
{
    let driving = check_layer(book, layer, off)?;
    if bad_candidate(candidate, driving.atom_count()) {
        return Err(Cause::BadCandidate);
    }
    Ok(candidate_stable(&driving, candidate))
}
